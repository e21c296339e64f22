//! The seats that a server's owner hands back to close it.
ghost use Rattle.std.specs.Prelude.{◌≡◌, ◌≢◌, ◌<◌, All, Any, MatchBool, MatchOption, length, slice_index};
ghost use mathlib.Core.List.{IsPrefix};
ghost use Rattle.cap_history.specs.Seat.{calls};
ghost use Rattle.cap_server.specs.Close.{FirstHasSeen, HasAll, IsMissing, StandsAt};
ghost use Rattle.cap_server.specs.Code.Seats.{Agrees};

use crate::{Front, List, Naming, Seat};
use cap_value::AllocHandle;

// The index of the seat with this number, if it was handed back.
pub(crate) fn place_of<J: Naming, A: AllocHandle>(
    seats: &[Seat<J, A>],
    number: u64,
) -> Option<usize>
    ensures { MatchOption result (IsMissing seats.now number) (λ place. StandsAt seats.now number place
        × (place < length seats.now)) }
{
    for place in 0..seats.len() {
        let seat = &seats[place];
        if seat.number() == number {
            return Some(place);
        }
    }
    None
}

// The least number below the count that no seat has, if there is one.
pub(crate) fn missing_seat<J: Naming, A: AllocHandle>(
    seats: &[Seat<J, A>],
    count: u64,
) -> Option<u64>
    ensures { MatchOption result (HasAll seats.now count) (λ number. (number < count)
        × IsMissing seats.now number × HasAll seats.now number) }
{
    for number in 0..count {
        let Some(_place) = place_of(seats, number) else {
            return Some(number);
        };
    }
    None
}

// Whether each seat has made as many calls as the server has counted.
pub(crate) fn calls_agree<J: Naming, A: AllocHandle>(seats: &[Seat<J, A>], counts: &[u64]) -> bool
    requires { length counts.now ≡ J.seats }
    ensures { MatchBool result (All (Agrees J.seats counts.now) seats.now)
        (Any (λ seat. (seat.number < J.seats) × (slice_index counts.now seat.number ≢ length (calls seat)))
        seats.now) }
{
    for seat in seats {
        let number = seat.number() as usize;
        if counts[number] != seat.calls() {
            return false;
        }
    }
    true
}

// Lets a list see what each seat has seen.
pub(crate) fn meet_all<J: Naming, A: AllocHandle>(list: &mut List<J, A>, seats: &[Seat<J, A>])
    ensures list { IsPrefix list.old list.new }
    ensures seats { All (λ seat. IsPrefix seat.seen list.new) seats.now }
{
    for seat in seats {
        list.meet(&seat.list());
    }
}

// Lets the first seat see what the list and all seats have seen, and then the whole history. Gives the number
// of its events.
pub(crate) fn first_sees_all<J: Naming, A: AllocHandle>(
    seats: &mut Vec<Seat<J, A>, A>,
    list: &List<J, A>,
    front: &Front<J, A>,
) -> u64
    requires { HasAll seats.old.items 1 }
    ensures { FirstHasSeen seats.old.items seats.new.items list.now result }
{
    let mut all = list.again();
    meet_all(&mut all, seats.as_slice());
    let Some(place) = place_of(seats.as_slice(), 0) else {
        unreachable!();
    };
    let first = &mut seats[place];
    first.see(&all);
    front.look(first)
}
