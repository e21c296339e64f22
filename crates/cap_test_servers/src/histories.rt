//! Seats of one front word: what each has seen, and who appends.

ghost use Rattle.std.specs.Prelude.{◌≡◌, [], length, IfSome};
ghost use Rattle.cap_core.specs.Answer.{reply_of};
ghost use Rattle.cap_history.specs.Seat.{calls};
ghost use Rattle.cap_core.specs.declared.command.Command.TheVariants.{Read};

use cap_core::{Command, Core, NoHook, Reply};
use cap_history::{Opened, Overtaken};
use cap_server::{Front, List, Naming, Seat, named};
use std::alloc::Global;
use std::marker::Brand;
use std::process::Abort;

// The reply to a read that is the first command.
fn first_reply(alloc: Global) -> Option<Reply<Global>>
    ensures { IfSome result (λ reply. reply ≡ reply_of [] Read) }
{
    cap_core::laws::legal_histories_grow::<Global>();
    let mut core = Core::new(alloc);
    match core.step(&Command::Read, &mut NoHook) {
        Ok(reply) => Some(reply),
        Err(_) => None,
    }
}

// Two seats append to the empty history; the second has to see the first one's event in place of adding its
// own.
fn append_from_both<J: Naming, R: Abort>(
    rt: &R,
    front: &Front<J, Global>,
    list: &List<J, Global>,
    reply: &Reply<Global>,
    first: &mut Seat<J, Global>,
    second: &mut Seat<J, Global>,
)
    requires list { list.now ≡ [] }
    requires reply { reply.now ≡ reply_of [] Read }
    requires none { length (calls first.old) ≡ 0 }
    requires neither { length (calls second.old) ≡ 0 }
{
    assert!(rt; front.append(first, list, &Command::Read, reply) == Ok(()));
    assert!(rt; (first.seen(), first.calls()) == (1, 1));
    let refused = front.append(second, list, &Command::Read, reply);
    assert!(rt; refused == Err(Overtaken { front: 1 }));
    assert!(rt; (second.seen(), second.calls()) == (1, 0));
}

// They are the last two of these seats.
fn append_from_each<J: Naming, R: Abort>(
    rt: &R,
    front: &Front<J, Global>,
    list: &List<J, Global>,
    reply: &Reply<Global>,
    seats: &mut Vec<Seat<J, Global>>,
) -> Option<()>
    requires list { list.now ≡ [] }
    requires reply { reply.now ≡ reply_of [] Read }
{
    let mut second = seats.pop()?;
    let mut first = seats.pop()?;
    if first.calls() != 0 || second.calls() != 0 {
        return None;
    }
    append_from_both(rt, front, list, reply, &mut first, &mut second);
    Some(())
}

fn append_twice<J: Naming, R: Abort>(rt: &R, opened: Opened<Global>, alloc: Global) -> Option<()>
    requires history { opened.seen.book ≡ J.book }
    requires seats { J.seats ≡ 2 }
{
    let (front, list, mut seats) = named::<J, Global>(opened, alloc, 2).ok()?;
    let reply = first_reply(alloc)?;
    append_from_each(rt, &front, &list, &reply, &mut seats)
}

#[test]
fn a_seat_behind_the_word_is_overtaken(rt: HostRuntime) {
    assert!(rt; append_twice::<Brand, _>(&rt, Opened::new(), rt.alloc()) == Some(()));
}
