//! Seats: the callers of the history.
ghost use Rattle.std.specs.Prelude.{◌≡◌, [], length};
ghost use mathlib.Core.List.{IsPrefix};
ghost use Rattle.cap_history.specs.History.{IsHistory, longer, own};
ghost use Rattle.cap_history.specs.Seat.{IsAnswered, SeesMore, calls};
ghost use Rattle.cap_history.specs.Seen.{newcomer_of};

use crate::{List, one_begins_the_other};
use cap_value::AllocHandle;
use std::marker::Model;

/// A client of the history: what it has seen, and the number of its calls. It cannot be copied. Who opens a
/// history makes one seat of each number, so each event is the call of one seat.
#[derive(Drop)]
pub struct Seat<A: AllocHandle> {
    pub(crate) number: u64,
    pub(crate) calls: u64,
    pub(crate) seen: List<A>,
    // What it had seen after its last call.
    pub(crate) answered: List<A>,
}

impl<A: AllocHandle> Model for Seat<A> {
    ghost use Rattle.std.specs.Prelude.{◌≡◌, length};
    ghost use Rattle.std.specs.Coded.{codes};
    ghost use Rattle.cap_filter.specs.Rule.{coded_rule};
    ghost use mathlib.Core.List.{IsPrefix};
    ghost use Rattle.cap_history.specs.History.{own};
    ghost use Rattle.cap_history.specs.Seat.{IsAnswered};
    ghost use Rattle.cap_history.specs.Seen.{Seated};

    ghost Value = { Seated A };

    ghost coded = { Prim.hlevel (codes, coded_rule) };

    ghost view = { λ s. record {
      book = s.seen.book;
      state = record { number = s.number; seen = s.seen.log; answered = s.answered.log };
    } };

    ghost invariant = { λ s. (s.calls ≡ length (own s.number s.answered.log))
        × IsPrefix s.answered.log s.seen.log × IsAnswered s.number s.answered.log
        × (s.answered.book ≡ s.seen.book) };
}

impl<A: AllocHandle> Seat<A> {
    /// A new seat with this number. Where a history has two seats of one number, a call from the one is
    /// overtaken where the other has called.
    pub fn new(number: u64, list: &List<A>) -> Self
        requires empty { list.now.log ≡ [] }
        ensures { result ≡ newcomer_of list.now.book number }
    {
        Seat {
            number,
            calls: 0,
            seen: list.again(),
            answered: list.again(),
        }
    }

    /// The seat's number, from 0.
    pub fn number(&self) -> u64
        ensures number { result ≡ self.now.state.number }
    {
        self.number
    }

    /// The number of events that it has seen.
    pub fn seen(&self) -> u64
        ensures length { result ≡ length self.now.state.seen }
        ensures history { IsHistory self.now.state.seen }
    {
        self.seen.len()
    }

    /// The number of its calls.
    pub fn calls(&self) -> u64
        ensures calls { result ≡ length (calls self.now.state) }
        ensures seen { IsPrefix self.now.state.answered self.now.state.seen }
        ensures answered { IsAnswered self.now.state.number self.now.state.answered }
    {
        self.calls
    }

    /// A law: a list with as many events of the seat as the seat has made calls begins with what the seat had
    /// seen after its last call. The call does nothing.
    pub fn calls_are_in(&self, list: &List<A>)
        requires book { list.now.book ≡ self.now.book }
        ensures { length (own self.now.state.number list.now.log) ≡ length (calls self.now.state)
            → IsPrefix self.now.state.answered list.now.log }
    {
        one_begins_the_other(&self.answered, list);
    }

    /// Sees what the list has seen.
    pub fn see(&mut self, list: &List<A>)
        requires book { list.now.book ≡ self.old.book }
        ensures book { self.new.book ≡ self.old.book }
        ensures seen { SeesMore self.old.state self.new.state }
        ensures both { self.new.state.seen ≡ longer self.old.state.seen list.now.log }
        ensures list { IsPrefix list.now.log self.new.state.seen }
        ensures history { IsHistory self.new.state.seen }
    {
        self.seen.meet(list);
    }

    /// Sees what another seat of the history has seen.
    pub fn meet(&mut self, other: &Seat<A>)
        requires book { other.now.book ≡ self.old.book }
        ensures book { self.new.book ≡ self.old.book }
        ensures seen { SeesMore self.old.state self.new.state }
        ensures both { self.new.state.seen ≡ longer self.old.state.seen other.now.state.seen }
        ensures other { IsPrefix other.now.state.seen self.new.state.seen }
    {
        self.see(&other.seen);
    }

    /// What it has seen.
    pub fn list(&self) -> List<A>
        ensures book { result.book ≡ self.now.book }
        ensures log { result.log ≡ self.now.state.seen }
    {
        self.seen.again()
    }
}
