//! Clients of one history, each called from this thread.
ghost use Rattle.std.specs.Prelude.{◌≡◌, IfSome};
ghost use mathlib.Core.List.{IsPrefix};
ghost use Rattle.cap_history.specs.Seat.{HasCalled};

use cap_core::{Command, CommitHook, Reply};
use cap_hub::{Client, HubFault, JoinFault};
use cap_locked::HookFault;
use cap_script::{Line, print_reply, read_line};
use std::alloc::Global;
use std::process::Abort;

// The text of the reply to a line's command.
fn answer(alloc: Global, client: &mut Client, line: &Line<Global>) -> Option<String>
    ensures history { client.new.book ≡ client.old.book }
{
    match client.call(&line.command) {
        Ok(reply) => print_reply(alloc, line, &reply).ok(),
        Err(_) => None,
    }
}

// Whether a line's command has this reply.
fn is_answered(alloc: Global, client: &mut Client, line: &str, reply: &str) -> bool
    ensures history { client.new.book ≡ client.old.book }
{
    let Ok(Some(line)) = read_line(alloc, 1, line) else {
        return false;
    };
    match answer(alloc, client, &line) {
        Some(text) => text.as_str() == reply,
        None => false,
    }
}

// Three clients, of which the first makes a table, the others commit, and the second reads its own row.
fn call_from_three<R: Abort>(
    rt: &R,
    alloc: Global,
    zero: &mut Client,
    first: &mut Client,
    second: &mut Client,
)
    requires history { first.old.book ≡ second.old.book }
    ensures history { first.new.book ≡ second.new.book }
{
    assert!(rt; is_answered(alloc, zero, "create t kv", "ok version 1"));
    assert!(rt; is_answered(alloc, first, "commit insert t (1,'x')", "ok version 2"));
    assert!(rt; is_answered(alloc, second, "commit insert t (2,'y')", "ok version 3"));
    assert!(rt; is_answered(alloc, first, "get t key(1)", "row (1,'x')"));
    assert!(rt; (first.seen(), second.seen()) == (4, 3));
    second.meet(first);
    assert!(rt; (zero.seen(), second.seen()) == (1, 4));
    assert!(rt; zero.front() == 4);
    assert!(rt; (zero.calls(), first.calls(), second.calls()) == (1, 2, 1));
}

// Calls from the one client, and from the other once it has met the first. The later call is behind the
// earlier one.
fn call_in_order(
    first: &mut Client,
    second: &mut Client,
    command: &Command<Global>,
) -> Option<(Reply<Global>, Reply<Global>)>
    requires history { first.old.book ≡ second.old.book }
    ensures order { IfSome result (λ replies. IsPrefix first.new.state.seen second.new.state.seen) }
    ensures first { IfSome result (λ replies.
        HasCalled first.old.state first.new.state command.now replies.0) }
{
    let earlier = match first.call(command) {
        Ok(reply) => reply,
        Err(_) => return None,
    };
    second.meet(first);
    match second.call(command) {
        Ok(later) => Some((earlier, later)),
        Err(_) => None,
    }
}

// A client whose calls are made while another one's call has the state.
#[derive(Drop)]
struct Within<'c> {
    client: &'c mut Client,
    is_busy: bool,
}

impl<'c> CommitHook<Global> for Within<'c> {
    type Refusal = ();

    ghost can_ask = { λ within reply. Unit {0} };

    ghost gives = { λ old reply answer new. Unit {0} };

    fn before_commit(&mut self, reply: &Reply<Global>) -> Result<(), ()> {
        self.is_busy = match self.client.call(&Command::Read) {
            Err(fault) => fault == HubFault::Busy,
            Ok(_reply) => false,
        };
        if matches!(reply, Reply::Session(1)) {
            Ok(())
        } else {
            Err(())
        }
    }
}

// Whether a call is answered, and whether a call of another client within it is busy.
fn called_within(client: &mut Client, other: &mut Client) -> (Option<bool>, bool) {
    let mut within = Within {
        client: other,
        is_busy: false,
    };
    let answered = match client.call_with_hook(&Command::NewSession, &mut within) {
        Ok(_reply) => Some(true),
        Err(HookFault::Refused(_)) => Some(false),
        Err(HookFault::Call(_)) => None,
    };
    (answered, within.is_busy)
}

// Clients until there is no seat for a further one.
fn all_joined(alloc: Global, client: &Client) -> Option<(Vec<Client>, JoinFault)> {
    let mut clients = Vec::new(alloc);
    for _ in 0..100u64 {
        match client.join() {
            Ok(joined) => clients.push(joined).ok()?,
            Err(fault) => return Some((clients, fault)),
        }
    }
    None
}

// Whether the seat that is given back is the next client's, with its calls.
fn is_taken_again(client: &Client, joined: Client) -> bool {
    let seat = (joined.number(), joined.calls(), joined.seen());
    if joined.close().is_err() {
        return false;
    }
    match client.join() {
        Ok(again) => (again.number(), again.calls(), again.seen()) == seat,
        Err(_) => false,
    }
}

// Three clients in turn, of which the later call is behind the earlier one.
fn call_in_turn<R: Abort>(rt: &R, alloc: Global) -> Option<()> {
    let mut zero = Client::open(alloc).ok()?;
    let mut first = zero.join().ok()?;
    let mut second = first.join().ok()?;
    assert!(rt; (zero.number(), first.number(), second.number()) == (0, 1, 2));
    call_from_three(rt, alloc, &mut zero, &mut first, &mut second);
    assert!(rt; call_in_order(&mut first, &mut second, &Command::Read).is_some());
    assert!(rt; (first.seen(), second.seen()) == (5, 6));
    Some(())
}

#[test]
fn each_client_reads_its_own_commit(rt: HostRuntime) {
    assert!(rt; call_in_turn(&rt, rt.alloc()) == Some(()));
}

// Whether calls within another one are busy and no events, and the hook's refusal is none.
fn is_busy_within(alloc: Global) -> Option<bool> {
    let mut zero = Client::open(alloc).ok()?;
    let mut first = zero.join().ok()?;
    let is_answered = called_within(&mut zero, &mut first) == (Some(true), true)
        && (first.seen(), first.calls()) == (0, 0);
    let is_refused = called_within(&mut first, &mut zero) == (Some(false), true)
        && (first.front(), first.calls()) == (1, 0);
    Some(is_answered && is_refused)
}

#[test]
fn a_call_within_another_is_busy(rt: HostRuntime) {
    assert!(rt; is_busy_within(rt.alloc()) == Some(true));
}

// Whether the seat of a client that has called is the next one's.
fn gives_back(alloc: Global) -> Option<bool> {
    let zero = Client::open(alloc).ok()?;
    let mut first = zero.join().ok()?;
    let is_made = is_answered(alloc, &mut first, "create t kv", "ok version 1");
    let is_taken = is_taken_again(&zero, first);
    Some(is_made && is_taken)
}

#[test]
fn seats_given_back_are_taken_again(rt: HostRuntime) {
    assert!(rt; gives_back(rt.alloc()) == Some(true));
}

// Whether 63 clients join before none can, and one whose seat is given back.
fn joins_63(alloc: Global) -> Option<bool> {
    let zero = Client::open(alloc).ok()?;
    let (mut clients, fault) = all_joined(alloc, &zero)?;
    let is_full = clients.len() == 63 && fault == JoinFault::TooMany;
    let last = clients.pop()?;
    let is_taken = is_taken_again(&zero, last);
    Some(is_full && is_taken)
}

#[test]
fn a_65th_client_is_refused(rt: HostRuntime) {
    assert!(rt; joins_63(rt.alloc()) == Some(true));
}
