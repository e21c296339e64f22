//! Three clients and a hub that change the same rows, and synchronise until all have the same.

use cap_apply::{Answer, ConflictKind, Policy};
use cap_core::{Command, Core, EVENTS_MAX, NoHook};
use cap_script::{Line, parse, print_reply};
use cap_test_convergence::{NotSynchronised, Synchronised, synchronise};
use cap_test_support::Memory;
use cap_value::{AllocHandle, Refusal};
use std::alloc::Global;

// Rows of three columns under 1 to 7, and a table with a row.
const BASE: &str = "create t kvv\ncreate u kv\n\
     commit insert t (1,'a','b') ; insert t (2,'a','b') ; insert t (3,'a','b') ; insert t (4,'a','b')\n\
     commit insert t (5,'a','b') ; insert t (6,'a','b') ; insert t (7,'a','b') ; insert u (1,'a')";

// A session of a client, and one of the hub for each client.
const SESSION: &str = "session\nattachall 1";

const SESSIONS: &str = "session\nattachall 1\nsession\nattachall 2\nsession\nattachall 3";

// What each client commits before it synchronises for the first time: the same rows in part, so that each
// kind of conflict is met.
const COMMITS: &[&str] = &[
    "commit update t key(1) set 1 = 'x' ; update t key(2) set 1 = 'x' , 2 = 'y' ; delete t key(3)\n\
     commit delete t key(4) ; insert t (8,'n','q') ; update u key(1) set 1 = 'x'",
    "commit update t key(1) set 1 = 'v' , 2 = 'w' ; update t key(3) set 1 = 'v' ; delete t key(2)\n\
     commit delete t key(4) ; insert t (8,'m','q') ; insert t (9,'l','l') ; delete u key(1)",
    "commit update t key(2) set 2 = 'r' ; update t key(4) set 2 = 'r' ; delete t key(1)\n\
     commit update t key(3) set 2 = 'r' ; insert t (8,'n','q') ; insert t (9,'k','l') ; delete t key(5)",
];

// What the hub commits by itself.
const HUB: &str = "commit update t key(6) set 1 = 's' ; insert t (10,'h','h')";

// More requests than one synchronisation makes.
const REQUESTS_MAX: u64 = 10_000;

const SHOWN: &str = "scan t\nscan u";

// Three clients and a hub.
#[derive(Drop)]
struct Servers<A: AllocHandle> {
    clients: Vec<Core<A>, A>,
    hub: Core<A>,
}

// Conflicts with a row have these answers, and those without a row are omitted.
fn policy(on_data: Answer, on_conflict: Answer) -> Policy {
    Policy {
        on_data,
        on_notfound: Answer::Omit,
        on_conflict,
    }
}

// Adds the text of the reply to a line.
fn carry_out<A: AllocHandle>(
    alloc: A,
    core: &mut Core<A>,
    line: &Line<A>,
    texts: &mut String<A>,
) -> Option<()> {
    if core.events() >= EVENTS_MAX {
        return None;
    }
    let reply = core.step(&line.command, &mut NoHook).ok()?;
    let text = print_reply(alloc, line, &reply).ok()?;
    texts.push_str(text.as_str()).ok()
}

// The replies to the lines of a workload.
fn replies<A: AllocHandle>(alloc: A, core: &mut Core<A>, workload: &str) -> Option<String<A>> {
    let workload = parse(alloc, workload).ok()?;
    let mut texts = String::new(alloc);
    for line in &workload.lines {
        carry_out(alloc, core, line, &mut texts)?;
    }
    Some(texts)
}

// A server with the base, after these lines.
fn server<A: AllocHandle>(alloc: A, workload: &str) -> Option<Core<A>> {
    let mut core = Core::new(alloc);
    replies(alloc, &mut core, BASE)?;
    replies(alloc, &mut core, workload)?;
    Some(core)
}

fn start<A: AllocHandle>(alloc: A) -> Option<Servers<A>> {
    let mut clients = Vec::new(alloc);
    for commits in COMMITS {
        let mut client = server(alloc, SESSION)?;
        replies(alloc, &mut client, *commits)?;
        clients.push(client).ok()?;
    }
    let mut hub = server(alloc, SESSIONS)?;
    replies(alloc, &mut hub, HUB)?;
    Some(Servers { clients, hub })
}

// Each client synchronises with the hub.
fn round(
    alloc: Global,
    servers: &mut Servers<Global>,
    policy: Policy,
    met: &mut [u64; 3],
) -> Option<()> {
    let mut session = 0u64;
    for client in &mut servers.clients {
        session = session.checked_add(1)?;
        let made = synchronise(alloc, client, 1, &mut servers.hub, session, policy).ok()?;
        count(&made, met);
    }
    Some(())
}

// Counts the conflicts of each kind.
fn count(made: &Synchronised<Global>, met: &mut [u64; 3]) {
    for conflict in made.report.conflicts() {
        let kind = match conflict.kind {
            ConflictKind::Data => 0,
            ConflictKind::NotFound => 1,
            ConflictKind::Conflict => 2,
        };
        met[kind] = met[kind].saturating_add(1);
    }
}

// Whether the clients have the hub's rows.
fn are_same(alloc: Global, servers: &mut Servers<Global>) -> Option<bool> {
    let expected = replies(alloc, &mut servers.hub, SHOWN)?;
    for client in &mut servers.clients {
        let shown = replies(alloc, client, SHOWN)?;
        if shown.as_str() != expected.as_str() {
            return Some(false);
        }
    }
    Some(true)
}

// Whether all have the same rows after a round.
fn same_after_a_round(
    alloc: Global,
    servers: &mut Servers<Global>,
    policy: Policy,
    met: &mut [u64; 3],
) -> Option<bool> {
    round(alloc, servers, policy, met)?;
    are_same(alloc, servers)
}

// Whether all have the same rows after two rounds, and not after one, with conflicts of each kind.
fn converge(alloc: Global, policy: Policy) -> bool {
    let Some(mut servers) = start(alloc) else {
        return false;
    };
    let mut met = [0u64; 3];
    same_after_a_round(alloc, &mut servers, policy, &mut met) == Some(false)
        && same_after_a_round(alloc, &mut servers, policy, &mut met) == Some(true)
        && met[0] > 0
        && met[1] > 0
        && met[2] > 0
}

#[test]
fn clients_converge_after_two_rounds(rt: HostRuntime) {
    assert!(rt; converge(rt.alloc(), policy(Answer::Omit, Answer::Omit)));
    assert!(rt; converge(rt.alloc(), policy(Answer::Omit, Answer::Replace)));
    assert!(rt; converge(rt.alloc(), policy(Answer::Replace, Answer::Omit)));
    assert!(rt; converge(rt.alloc(), policy(Answer::Replace, Answer::Replace)));
}

// A client with a session and the hub.
fn pair<A: AllocHandle>(alloc: A) -> Option<(Core<A>, Core<A>)> {
    let mut client = server(alloc, SESSION)?;
    replies(alloc, &mut client, COMMITS[0])?;
    let mut hub = server(alloc, SESSIONS)?;
    replies(alloc, &mut hub, HUB)?;
    replies(alloc, &mut hub, COMMITS[1])?;
    Some((client, hub))
}

// Why a client and the hub do not synchronise, and whether both are as they were.
fn refused(
    alloc: Global,
    sessions: (u64, u64),
    policy: Policy,
) -> Option<(Option<NotSynchronised>, bool)> {
    let (mut client, mut hub) = pair(alloc)?;
    let before = (client.events(), hub.events());
    let why = synchronise(alloc, &mut client, sessions.0, &mut hub, sessions.1, policy).err();
    Some((why, (client.events(), hub.events()) == before))
}

const ABORT: Policy = Policy {
    on_data: Answer::Abort,
    on_notfound: Answer::Omit,
    on_conflict: Answer::Omit,
};

#[test]
fn what_is_refused_changes_nothing(rt: HostRuntime) {
    let alloc = rt.alloc();
    let omit = policy(Answer::Omit, Answer::Omit);
    let no_client = Some(NotSynchronised::NoClientSession);
    assert!(rt; refused(alloc, (2, 1), omit) == Some((no_client, true)));
    let no_hub = Some(NotSynchronised::NoHubSession);
    assert!(rt; refused(alloc, (1, 4), omit) == Some((no_hub, true)));
    let aborted = Some(NotSynchronised::NotApplied(Refusal::Aborted { at: 0 }));
    assert!(rt; refused(alloc, (1, 1), ABORT) == Some((aborted, true)));
}

// The server as it is, with which it shares all memory.
fn beside<A: AllocHandle>(core: &Core<A>) -> Option<Core<A>> {
    if core.events() >= EVENTS_MAX {
        return None;
    }
    let (beside, _reply) = core.prepare(&Command::Read).ok()?;
    Some(beside)
}

// Synchronises with this request refused: whether it was made. None where anything but want of memory, or
// success, comes of it, or where want of memory changes anything.
fn with_a_request_refused<A: AllocHandle>(
    alloc: A,
    memory: &Memory<Global>,
    (mut client, mut hub): (Core<A>, Core<A>),
    number: u64,
) -> Option<bool> {
    let before = (client.events(), hub.events());
    let omit = policy(Answer::Omit, Answer::Omit);
    memory.refuse(number);
    let made = synchronise(alloc, &mut client, 1, &mut hub, 1, omit).err();
    memory.refuse(0);
    let is_same = (client.events(), hub.events()) == before;
    match made {
        None => (!is_same).then_some(memory.has_refused()),
        Some(NotSynchronised::OutOfMemory) => is_same.then_some(memory.has_refused()),
        Some(_) => None,
    }
}

// How many requests there are, each of which was refused.
fn requests_refused<A: AllocHandle>(alloc: A, memory: &Memory<Global>) -> Option<u64> {
    let (client, hub) = pair(alloc)?;
    for number in 1..REQUESTS_MAX {
        let both = (beside(&client)?, beside(&hub)?);
        if !with_a_request_refused(alloc, memory, both, number)? {
            return Some(number - 1);
        }
    }
    None
}

#[test]
fn without_memory_nothing_changes(rt: HostRuntime) {
    let memory = Memory::new(rt.alloc());
    assert!(rt; requests_refused(&memory, &memory).unwrap_or(0) > 100);
}
