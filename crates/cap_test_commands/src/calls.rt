//! A call of each of the twenty-one commands, and what becomes of it with each request for memory refused.
ghost use Rattle.std.specs.Prelude.{◌≡◌};

use crate::carried::push_line;
use cap_core::{Command, Reply};
use cap_history::Opened;
use cap_locked::CallFault;
use cap_script::{Line, parse, print_reply};
use cap_server::{Naming, Seat, Server};
use cap_test_support::Memory;
use cap_value::AllocHandle;
use std::alloc::Global;
use std::marker::Brand;
use std::sync::Wait;

// Each of the twenty-one commands, an application with a filter, and a step of a transaction.
pub(crate) const WORKLOAD: &str = "create t kv\n\
     commit insert t (1,'x')\n\
     session\n\
     attach 1 t\n\
     attachall 1\n\
     filter 1 not is audit\n\
     create audit kv\n\
     commit insert audit (1,'a') ; insert t (2,'y')\n\
     save old\n\
     databases\n\
     sessions\n\
     tables\n\
     dump\n\
     apply x'5402010074001200010000000000000001030179' omit omit replace\n\
     isempty 1\n\
     changeset 1\n\
     restart 1\n\
     isempty 1\n\
     indirect 1 on\n\
     enable 1 off\n\
     commit delete t key(2)\n\
     diff 1 old t\n\
     changeset 1\n\
     scan t\n\
     apply x'540201006175646974001200010000000000000009030162540201007400120001000000000000000103017a' omit omit omit report filter is t\n\
     begin\n\
     dropdatabase old\n\
     drop 1\n\
     isempty 1";

// The replies to them, of which the last one is refused.
pub(crate) const REPLIES: &str = "ok version 1\n\
     ok version 2\n\
     session 1\n\
     ok\n\
     ok\n\
     ok\n\
     ok version 3\n\
     ok version 4\n\
     ok\n\
     databases 1\n\
     \"old\"\n\
     sessions 1\n\
     1 enable on indirect off isempty false \"t\"\n\
     tables 2\n\
     \"audit\" kv keyed 1 loose 0\n\
     \"t\" kv keyed 2 loose 0\n\
     changeset 54020100617564697400120001000000000000000103016154020100740012000100000000000000010301781200010000000000000002030179\n\
     ok version 5, applied 1, omitted 0, skipped 0\n\
     false\n\
     changeset 5402010074001700010000000000000001030178000301791200010000000000000002030179\n\
     changeset 5402010074001700010000000000000001030178000301791200010000000000000002030179\n\
     true\n\
     on\n\
     off\n\
     ok version 6\n\
     ok\n\
     changeset 5402010074001701010000000000000001030178000301790901010000000000000002030179\n\
     rows 1\n\
     (1,'y')\n\
     ok version 7, applied 0, omitted 1, skipped 0, passed 1\n\
     conflict 1 conflict omit\n\
     omitted 1\n\
     refused: E21 NoTransaction\n\
     ok\n\
     ok\n\
     refused: E18 NoSession\n";

// What a call is answered.
type Called = Result<Reply<Global>, CallFault>;

// Makes the call. A commit takes its batch.
fn call<J: Naming>(
    rt: &impl Wait,
    server: &Server<J, Global>,
    seat: &mut Seat<J, Global>,
    command: Command<Global>,
) -> Called {
    match command {
        Command::Commit(batch) => server.commit(rt, seat, batch),
        command => server.call(rt, seat, &command),
    }
}

// Adds the text of the reply to a line's command.
fn push_reply<A: AllocHandle>(
    alloc: A,
    texts: &mut String,
    line: Option<&Line<A>>,
    reply: &Reply<A>,
) -> Option<()> {
    let text = print_reply(alloc, line?, reply).ok()?;
    push_line(texts, text.as_str())
}

// Makes each call of the workload, and adds the texts of the replies. A call takes its command, so that the
// lines are read twice.
fn answers<J: Naming>(
    rt: &impl Wait,
    alloc: Global,
    server: &Server<J, Global>,
    seat: &mut Seat<J, Global>,
    texts: &mut String,
) -> Option<()> {
    let shown = parse(alloc, WORKLOAD).ok()?;
    let mut shown = shown.lines.iter();
    for line in parse(alloc, WORKLOAD).ok()?.lines {
        let reply = call(rt, server, seat, line.into_command()).ok()?;
        push_reply(alloc, texts, shown.next(), &reply)?;
    }
    Some(())
}

// One seat makes each call. Adds the texts of the replies, and answers how many calls it has made, and how
// many events it has seen.
fn each_call<J: Naming + Send + Sync>(
    rt: &impl Wait,
    opened: Opened<Global>,
    alloc: Global,
    texts: &mut String,
) -> Option<(u64, u64)>
    requires history { opened.seen.book ≡ J.book }
    requires seats { J.seats ≡ 1 }
{
    let (server, mut seats) = Server::<J, Global>::open(opened, alloc, 1).ok()?;
    let mut seat = seats.pop()?;
    answers(rt, alloc, &server, &mut seat, texts)?;
    Some((seat.calls(), seat.seen()))
}

// More requests for memory than any call makes.
pub(crate) const REQUESTS_MAX: u64 = 10_000;

// Opens a server, and answers whether it has its seat; none where there is no memory.
fn is_opened<J: Naming + Send + Sync, A: AllocHandle>(opened: Opened<A>, alloc: A) -> Option<bool>
    requires history { opened.seen.book ≡ J.book }
    requires seats { J.seats ≡ 1 }
{
    match Server::<J, A>::open(opened, alloc, 1) {
        Ok((_server, seats)) => Some(seats.len() == 1),
        Err(_) => None,
    }
}

// Makes a call with this request refused, and answers it.
fn call_with_a_request_refused<J: Naming, A: AllocHandle>(
    rt: &impl Wait,
    server: &Server<J, A>,
    seat: &mut Seat<J, A>,
    memory: &Memory<Global>,
    line: &Line<A>,
    number: u64,
) -> Result<Reply<A>, CallFault> {
    memory.refuse(number);
    let answer = server.call(rt, seat, &line.command);
    memory.refuse(0);
    answer
}

// Makes a call with each request refused in turn, until it meets none, and answers its reply. A call that is
// out of memory is no event: the seat has made as many calls as before, and the server has as many events.
fn starve<J: Naming, A: AllocHandle>(
    rt: &impl Wait,
    server: &Server<J, A>,
    seat: &mut Seat<J, A>,
    memory: &Memory<Global>,
    line: &Line<A>,
) -> Option<Reply<A>> {
    let made = seat.calls();
    for number in 1..REQUESTS_MAX {
        match call_with_a_request_refused(rt, server, seat, memory, line, number) {
            Ok(reply) => return (!memory.has_refused()).then_some(reply),
            Err(CallFault::OutOfMemory) => {
                let kept = (memory.has_refused(), seat.calls(), server.front(seat));
                if kept != (true, made, made) {
                    return None;
                }
            }
            Err(_) => return None,
        }
    }
    None
}

// Makes each call of these lines so, and adds the texts of the replies.
fn starve_each<J: Naming, A: AllocHandle>(
    rt: &impl Wait,
    alloc: A,
    server: &Server<J, A>,
    seat: &mut Seat<J, A>,
    memory: &Memory<Global>,
    texts: &mut String,
) -> Option<()> {
    let workload = parse(alloc, WORKLOAD).ok()?;
    for line in &workload.lines {
        let reply = starve(rt, server, seat, memory, line)?;
        push_reply(alloc, texts, Some(line), &reply)?;
    }
    Some(())
}

// Each request of each call is refused, until there is none left. The same call then has the reply that it
// would have had.
fn starved<J: Naming + Send + Sync, A: AllocHandle>(
    rt: &impl Wait,
    opened: Opened<A>,
    alloc: A,
    memory: &Memory<Global>,
    texts: &mut String,
) -> Option<()>
    requires history { opened.seen.book ≡ J.book }
    requires seats { J.seats ≡ 1 }
{
    let (server, mut seats) = Server::<J, A>::open(opened, alloc, 1).ok()?;
    let mut seat = seats.pop()?;
    starve_each(rt, alloc, &server, &mut seat, memory, texts)
}

#[test]
fn each_call_is_answered(rt: HostRuntime) {
    let mut texts = String::new(rt.alloc());
    let called = each_call::<Brand>(&rt, Opened::new(), rt.alloc(), &mut texts);
    assert!(rt; called == Some((29, 29)));
    // They are the replies of the sequential server.
    assert!(rt; texts.as_str() == REPLIES);
}

#[test]
fn a_call_without_memory_is_no_event(rt: HostRuntime) {
    let memory = Memory::new(rt.alloc());
    let mut texts = String::new(rt.alloc());
    let answered = starved::<Brand, _>(&rt, Opened::new(), &memory, &memory, &mut texts);
    assert!(rt; answered == Some(()));
    assert!(rt; texts.as_str() == REPLIES);
}

#[test]
fn each_request_of_an_opening_is_refused(rt: HostRuntime) {
    let memory = Memory::new(rt.alloc());
    for number in 1..REQUESTS_MAX {
        memory.refuse(number);
        let opened = is_opened::<Brand, _>(Opened::new(), &memory);
        if !memory.has_refused() {
            assert!(rt; opened == Some(true) && number > 2);
            return;
        }
        assert!(rt; opened.is_none());
    }
    // It is never opened.
    assert!(rt; false);
}
