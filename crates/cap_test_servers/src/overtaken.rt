//! Calls that are overtaken: each of two locks over one front word takes itself to be the only one.
ghost use Rattle.std.specs.Prelude.{◌≡◌, []};

use cap_core::Command;
use cap_history::Opened;
use cap_locked::CallFault;
use cap_server::{Front, List, Locked, Naming, Seat, named};
use std::alloc::Global;
use std::marker::Brand;
use std::process::Abort;

// Whether a read from the seat under the lock is overtaken by a history of two events. The seat has then seen
// these, and has made so many calls.
fn is_overtaken<J: Naming>(
    front: &Front<J, Global>,
    lock: &mut Locked<J, Global>,
    seat: &mut Seat<J, Global>,
    calls: u64,
) -> bool {
    match lock.step(front, seat, &Command::Read) {
        Ok(_reply) => false,
        Err(fault) => {
            let is_overtaken = fault == (CallFault::Overtaken { front: 2 });
            is_overtaken && (seat.seen(), seat.calls()) == (2, calls)
        }
    }
}

// Two seats call under one lock. Under the other the third seat finds a longer history, and so does the
// first, whose calls are not those that this lock has counted.
fn call_under_both<J: Naming, R: Abort>(
    rt: &R,
    front: &Front<J, Global>,
    one: &mut Locked<J, Global>,
    other: &mut Locked<J, Global>,
    zero: &mut Seat<J, Global>,
    first: &mut Seat<J, Global>,
    second: &mut Seat<J, Global>,
) {
    assert!(rt; one.step(front, zero, &Command::Read).is_ok());
    assert!(rt; one.step(front, first, &Command::Read).is_ok());
    assert!(rt; is_overtaken(front, other, second, 0));
    assert!(rt; zero.seen() == 1);
    assert!(rt; is_overtaken(front, other, zero, 1));
}

// The seats call in turn.
fn call_from_three<J: Naming, R: Abort>(
    rt: &R,
    front: &Front<J, Global>,
    one: &mut Locked<J, Global>,
    other: &mut Locked<J, Global>,
    seats: &mut Vec<Seat<J, Global>>,
) -> Option<()> {
    let mut second = seats.pop()?;
    let mut first = seats.pop()?;
    let mut zero = seats.pop()?;
    call_under_both(rt, front, one, other, &mut zero, &mut first, &mut second);
    Some(())
}

// Two locks over one list.
fn locks<J: Naming>(
    alloc: Global,
    list: List<J, Global>,
) -> Option<(Locked<J, Global>, Locked<J, Global>)>
    requires list { list ≡ [] }
    requires seats { J.seats ≡ 3 }
{
    let one = Locked::open(alloc, list.again(), 3).ok()?;
    let other = Locked::open(alloc, list, 3).ok()?;
    Some((one, other))
}

fn two_locks<J: Naming, R: Abort>(rt: &R, opened: Opened<Global>, alloc: Global) -> Option<()>
    requires history { opened.seen.book ≡ J.book }
    requires seats { J.seats ≡ 3 }
{
    let (front, list, mut seats) = named::<J, Global>(opened, alloc, 3).ok()?;
    let (mut one, mut other) = locks(alloc, list)?;
    call_from_three(rt, &front, &mut one, &mut other, &mut seats)
}

#[test]
fn a_call_under_another_lock_is_overtaken(rt: HostRuntime) {
    assert!(rt; two_locks::<Brand, _>(&rt, Opened::new(), rt.alloc()) == Some(()));
}
