//! Seats: the callers of a history that has a name.
ghost use Rattle.std.specs.Prelude.{◌≡◌, ◌<◌, [], length};
ghost use mathlib.Core.List.{IsPrefix};
ghost use Rattle.cap_history.specs.History.{IsHistory, longer, own};
ghost use Rattle.cap_history.specs.Seat.{IsAnswered, SeesMore, calls, newcomer};

use crate::{List, Naming};
use cap_value::AllocHandle;
use std::marker::{Model, PhantomData};

/// A client of the history: what it has seen, and the number of its calls. It cannot be copied, so each event
/// is the call of one seat.
#[derive(Drop)]
pub struct Seat<J: Naming, A: AllocHandle> {
    pub(crate) seat: cap_history::Seat<A>,
    pub(crate) of: PhantomData<J>,
}

impl<J: Naming, A: AllocHandle> Model for Seat<J, A> {
    ghost use Rattle.std.specs.Prelude.{◌≡◌, ◌<◌};
    ghost use Rattle.std.specs.Coded.{codes};
    ghost use Rattle.cap_filter.specs.Rule.{coded_rule};
    ghost use Rattle.cap_history.specs.Seat.{SeatState};

    ghost Value = { SeatState A };

    ghost coded = { Prim.hlevel (codes, coded_rule) };

    ghost view = { λ s. s.seat.state };

    ghost invariant = { λ s. (s.seat.book ≡ J.book) × (s.seat.state.number < J.seats) };
}

impl<J: Naming, A: AllocHandle> Seat<J, A> {
    pub(crate) fn new(number: u64, list: &List<J, A>) -> Self
        requires number { number < J.seats }
        requires empty { list.now ≡ [] }
        ensures { result ≡ newcomer number }
    {
        Seat {
            seat: cap_history::Seat::new(number, &list.list),
            of: PhantomData,
        }
    }

    /// The seat's number, from 0.
    pub fn number(&self) -> u64
        ensures number { result ≡ self.now.number }
        ensures known { result < J.seats }
    {
        self.seat.number()
    }

    /// The number of events that it has seen.
    pub fn seen(&self) -> u64
        ensures length { result ≡ length self.now.seen }
        ensures history { IsHistory self.now.seen }
    {
        self.seat.seen()
    }

    /// The number of its calls.
    pub fn calls(&self) -> u64
        ensures calls { result ≡ length (calls self.now) }
        ensures seen { IsPrefix self.now.answered self.now.seen }
        ensures answered { IsAnswered self.now.number self.now.answered }
    {
        self.seat.calls()
    }

    /// A law: a list with as many events of the seat as the seat has made calls begins with what the seat had
    /// seen after its last call. The call does nothing.
    pub fn calls_are_in(&self, list: &List<J, A>)
        ensures { length (own self.now.number list.now) ≡ length (calls self.now)
            → IsPrefix self.now.answered list.now }
    {
        self.seat.calls_are_in(&list.list);
    }

    /// Sees what the list has seen.
    pub fn see(&mut self, list: &List<J, A>)
        ensures seen { SeesMore self.old self.new }
        ensures both { self.new.seen ≡ longer self.old.seen list.now }
        ensures list { IsPrefix list.now self.new.seen }
        ensures history { IsHistory self.new.seen }
    {
        self.seat.see(&list.list);
    }

    /// What it has seen.
    pub fn list(&self) -> List<J, A>
        ensures { result ≡ self.now.seen }
    {
        List {
            list: self.seat.list(),
            of: PhantomData,
        }
    }
}
