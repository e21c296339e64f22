//! Steps of the sequential server that are refused, by the commit hook or out of memory.
use crate::calls::REQUESTS_MAX;
use crate::carried::{give, line_of};
use cap_core::{Command, CommitHook, Core, EVENTS_MAX, NoHook, Reply};
use cap_script::{Line, parse, print_reply};
use cap_test_support::{CountingHook, Memory};
use cap_value::AllocHandle;
use std::alloc::Global;

// A hook on the commits of a server that counts and answers.
#[derive(Drop)]
struct Hook {
    counting: CountingHook,
}

impl<A: AllocHandle> CommitHook<A> for Hook {
    type Refusal = ();

    ghost can_ask = { λ hook reply. Unit {0} };

    ghost gives = { λ old reply answer new. Unit {0} };

    fn before_commit(&mut self, _reply: &Reply<A>) -> Result<(), ()> {
        self.counting.ask()
    }
}

// A table, a saved database, and three sessions, of which the first two attach the table and saw a row.
const SERVER: &str = "create t kv\n\
     commit insert t (1,10)\n\
     save old\n\
     commit insert t (2,20)\n\
     session\n\
     attach 1 t\n\
     session\n\
     attach 2 t\n\
     session\n\
     commit insert t (5,50)";

// Commands to it, with whether they change anything, and whether they take memory.
const COMMANDS: &[(&str, bool, bool)] = &[
    ("commit insert t (3,30)", true, true),
    ("commit update t key(1) set 1 = 11", true, true),
    ("commit delete t key(2)", true, true),
    ("commit insert t (4,40) ; delete t key(2)", true, true),
    ("create u kv", true, true),
    (
        "apply x'54020100740012000100000000000000020301780900010000000000000001030179' \
         omit replace replace",
        true,
        true,
    ),
    ("save a", true, true),
    ("dropdatabase old", true, true),
    ("databases", false, true),
    ("sessions", false, true),
    ("tables", false, true),
    ("dump", false, true),
    ("session", true, false),
    ("drop 1", true, false),
    ("attach 3 t", true, true),
    ("attachall 3", true, false),
    ("filter 3 is t", true, false),
    ("enable 1 off", true, false),
    ("indirect 1 on", true, false),
    ("diff 3 old t", true, true),
    ("restart 1", true, true),
    ("changeset 1", false, true),
    ("isempty 1", false, false),
    ("scan t", false, true),
];

// Refused commands to a server at its limits, with their replies. Each refusal is known without memory.
const REFUSALS: &[(&str, &str)] = &[
    ("create t kv", "refused: E9 TableExists"),
    ("create z kv", "refused: E10 TooMany"),
    ("save z", "refused: E10 TooMany"),
    ("dropdatabase new", "refused: E19 NoDatabase"),
    ("session", "refused: E10 TooMany"),
    (
        "commitat 1 insert t (3,30)",
        "refused: E11 Stale base 1 now 67",
    ),
    (
        "commit insert z (1,10) ; insert t (3,30)",
        "refused at 0: E8 NoTable",
    ),
    ("commit insert t (1,2,3)", "refused at 0: E3 WrongWidth"),
    (
        "commit update t key(1) set 2 = 0",
        "refused at 0: E4 BadColumn",
    ),
    ("commit update t key(7) set 1 = 0", "refused at 0: E6 NoRow"),
    (
        "commit delete t key(7) ; delete t key(1)",
        "refused at 0: E6 NoRow",
    ),
    ("drop 65", "refused: E18 NoSession"),
    ("attach 65 t", "refused: E18 NoSession"),
    ("filter 65 is t", "refused: E18 NoSession"),
    ("enable 65 off", "refused: E18 NoSession"),
    ("diff 65 old t", "refused: E18 NoSession"),
    ("changeset 65", "refused: E18 NoSession"),
    ("restart 65", "refused: E18 NoSession"),
    ("diff 1 new t", "refused: E19 NoDatabase"),
    ("diff 1 old t0", "refused: E14 Incompatible"),
];

// Shows what they may change, on a server beside it.
const CONTENT: &str = "scan t\n\
     scan u\n\
     changeset 1\n\
     changeset 2\n\
     changeset 3\n\
     isempty 4\n\
     enable 1 ask\n\
     indirect 1 ask\n\
     databases\n\
     isempty 3\n\
     commit insert t (9,90)\n\
     isempty 3\n\
     diff 2 a t\n\
     changeset 2";

// The server as it is, with which it shares all memory.
fn beside<A: AllocHandle>(core: &Core<A>) -> Option<Core<A>> {
    if core.events() >= EVENTS_MAX {
        return None;
    }
    let (beside, _reply) = core.prepare(&Command::Read).ok()?;
    Some(beside)
}

// What a server holds, in words: the replies to these lines on a server beside it.
fn content<A: AllocHandle>(alloc: A, core: &Core<A>, shown: &[Line<A>]) -> Option<String<A>> {
    let mut beside = beside(core)?;
    give(alloc, &mut beside, shown)
}

// Whether a server holds this.
fn holds<A: AllocHandle>(alloc: A, core: &Core<A>, shown: &[Line<A>], expected: &str) -> bool {
    match content(alloc, core, shown) {
        Some(texts) => texts.as_str() == expected,
        None => false,
    }
}

// Makes the step where there was room for it, and answers whether it was made and how often the hook was
// asked.
fn step<A: AllocHandle>(core: &mut Core<A>, line: &Line<A>, allows: bool) -> (bool, u64) {
    let mut hook = Hook {
        counting: CountingHook::new(allows),
    };
    let made = core.events() < EVENTS_MAX && core.step(&line.command, &mut hook).is_ok();
    (made, hook.counting.asked)
}

// Makes the step with this request refused: whether the request was made. If it was not, the commit hook is
// asked, which refuses. None where anything else comes of it.
fn step_with_a_request_refused<A: AllocHandle>(
    memory: &Memory<Global>,
    core: &mut Core<A>,
    line: &Line<A>,
    number: u64,
) -> Option<bool> {
    // Every node is shared, so that a change needs memory.
    let _shared = beside(core)?;
    memory.refuse(number);
    let stepped = step(core, line, false);
    memory.refuse(0);
    let is_refused = memory.has_refused();
    (stepped == (false, u64::from(!is_refused))).then_some(is_refused)
}

// Makes the step with each request refused in turn, until the commit hook is asked, which refuses. Answers
// how many requests were refused, or nothing where a refused step changed the server or asked the hook.
fn refuse_in_turn<A: AllocHandle>(
    alloc: A,
    memory: &Memory<Global>,
    core: &mut Core<A>,
    line: &Line<A>,
    (shown, before): (&[Line<A>], &str),
) -> Option<u64> {
    for number in 1..REQUESTS_MAX {
        let is_refused = step_with_a_request_refused(memory, core, line, number)?;
        if core.events() != 10 || !holds(alloc, core, shown, before) {
            return None;
        }
        if !is_refused {
            return Some(number - 1);
        }
    }
    None
}

// Whether a command changes nothing with each request refused, and where the commit hook refuses; then the
// hook allows it, and the server is another just where the command changes anything.
fn is_whole_or_nothing<A: AllocHandle>(
    alloc: A,
    memory: &Memory<Global>,
    core: &mut Core<A>,
    shown: &[Line<A>],
    (command, changes, grows): (&str, bool, bool),
) -> Option<bool> {
    let line = line_of(alloc, command)?;
    let before = content(alloc, core, shown)?;
    let refused = refuse_in_turn(alloc, memory, core, &line, (shown, before.as_str()))?;
    let is_made = step(core, &line, true) == (true, 1) && core.events() == 11;
    let is_same = holds(alloc, core, shown, before.as_str());
    Some(is_made && is_same != changes && (refused > 0) == grows)
}

// The first of the commands of which this does not hold; an empty text where there is none.
fn first_that_fails<A: AllocHandle>(alloc: A, memory: &Memory<Global>) -> Option<&'static str> {
    let server = parse(alloc, SERVER).ok()?;
    let shown = parse(alloc, CONTENT).ok()?;
    for command in COMMANDS {
        let mut core = Core::new(alloc);
        give(alloc, &mut core, &server.lines)?;
        if is_whole_or_nothing(alloc, memory, &mut core, &shown.lines, *command) != Some(true) {
            return Some(command.0);
        }
    }
    Some("")
}

// Each request of each command is refused, until the commit hook is asked, which refuses. Then it allows the
// commit.
#[test]
fn a_write_without_memory_or_vetoed_by_the_hook_changes_nothing(rt: HostRuntime) {
    let memory = Memory::new(rt.alloc());
    assert!(rt; first_that_fails(&memory, &memory) == Some(""));
}

// A server with 64 tables, 64 sessions and 16 saved databases.
fn full<A: AllocHandle>(alloc: A) -> Option<Core<A>> {
    let mut core = Core::new(alloc);
    let server = parse(alloc, SERVER).ok()?;
    give(alloc, &mut core, &server.lines)?;
    for number in 0..63u64 {
        let text = format!(in alloc; "create t{number} kv\nsave s{number}\nsession").ok()?;
        let more = parse(alloc, text.as_str()).ok()?;
        give(alloc, &mut core, &more.lines)?;
    }
    Some(core)
}

// Makes the step with this request refused: whether the request was made, or None where the step has another
// reply.
fn reply_with_a_request_refused<A: AllocHandle>(
    alloc: A,
    memory: &Memory<Global>,
    core: &mut Core<A>,
    (line, reply): (&Line<A>, &str),
    number: u64,
) -> Option<bool> {
    if core.events() >= EVENTS_MAX {
        return None;
    }
    memory.refuse(number);
    let stepped = core.step(&line.command, &mut NoHook).ok();
    memory.refuse(0);
    let is_refused = memory.has_refused();
    let stepped = stepped?;
    let text = print_reply(alloc, line, &stepped).ok()?;
    (text.as_str() == reply).then_some(is_refused)
}

// Makes the step with each request refused in turn, until it meets none. Answers how many were refused, or
// nothing where a step has another reply than this.
fn refuse_each<A: AllocHandle>(
    alloc: A,
    memory: &Memory<Global>,
    core: &mut Core<A>,
    (command, reply): (&str, &str),
) -> Option<u64> {
    let line = line_of(alloc, command)?;
    for number in 1..REQUESTS_MAX {
        let is_refused = reply_with_a_request_refused(alloc, memory, core, (&line, reply), number)?;
        if !is_refused {
            return Some(number - 1);
        }
    }
    None
}

// The first of the refusals that is not the reply with each request refused, or an empty text; and how many
// requests were refused.
fn first_that_waits<A: AllocHandle>(
    alloc: A,
    memory: &Memory<Global>,
) -> Option<(&'static str, u64)> {
    let mut core = full(alloc)?;
    let mut refused = 0u64;
    for (command, reply) in REFUSALS {
        match refuse_each(alloc, memory, &mut core, (*command, *reply)) {
            Some(count) => refused = refused.saturating_add(count),
            None => return Some((*command, refused)),
        }
    }
    Some(("", refused))
}

// Whether each is the reply with each request refused, of which there are some.
fn none_waits<A: AllocHandle>(alloc: A, memory: &Memory<Global>) -> bool {
    match first_that_waits(alloc, memory) {
        Some((failed, refused)) => failed.is_empty() && refused > 0,
        None => false,
    }
}

#[test]
fn a_refusal_that_needs_no_memory_is_the_reply_without_it(rt: HostRuntime) {
    let memory = Memory::new(rt.alloc());
    assert!(rt; none_waits(&memory, &memory));
}
