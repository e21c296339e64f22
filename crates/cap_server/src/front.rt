//! The front word of a history that has a name.
ghost use Rattle.std.specs.Prelude.{◌≡◌, ◌<◌, [], ◌∷◌, ◌++◌, length, OnOk, IfErr};
ghost use mathlib.Core.List.{IsPrefix};
ghost use Rattle.cap_core.specs.Answer.{event_by, reply_of};
ghost use Rattle.cap_core.specs.Past.{HasRoom};
ghost use Rattle.cap_history.specs.History.{longer, own};
ghost use Rattle.cap_history.specs.Seat.{HasCalled, SeesMore, calls};

use crate::{List, Naming, Seat};
use cap_core::{Command, Reply};
use cap_history::Overtaken;
use cap_value::AllocHandle;
use std::marker::PhantomData;

/// The atomic word that all threads share: the number of events of the history.
#[derive(Drop)]
pub struct Front<J: Naming, A: AllocHandle> {
    pub(crate) front: cap_history::Front<A>,
    pub(crate) of: PhantomData<J>,
    ghost named: { front ≡ J.book },
}

impl<J: Naming, A: AllocHandle> Front<J, A> {
    /// Lets the seat see the whole history, and gives the number of its events. It takes no lock.
    pub fn look(&self, seat: &mut Seat<J, A>) -> u64
        ensures seen { SeesMore seat.old seat.new }
        ensures front { result ≡ length seat.new.seen }
    {
        self.front.look(&mut seat.seat)
    }

    /// Lets the second seat see what the first has seen. It takes no lock.
    pub fn meet(&self, first: &Seat<J, A>, second: &mut Seat<J, A>)
        ensures seen { SeesMore second.old second.new }
        ensures both { second.new.seen ≡ longer second.old.seen first.now.seen }
        ensures first { IsPrefix first.now.seen second.new.seen }
    {
        second.seat.meet(&first.seat);
    }

    /// Appends the seat's call with its reply to a list, where that is the whole history. Otherwise the
    /// history is longer, and the seat sees it. It is one compare-and-swap of the word, and takes no lock.
    pub fn append(
        &self,
        seat: &mut Seat<J, A>,
        at: &List<J, A>,
        command: &Command<A>,
        reply: &Reply<A>,
    ) -> Result<(), Overtaken>
        requires room { HasRoom (length at.now) }
        requires reply { reply.now ≡ reply_of at.now command.now }
        requires calls { length (own seat.old.number at.now) ≡ length (calls seat.old) }
        ensures called { OnOk result (HasCalled seat.old seat.new command.now reply.now) }
        ensures added { OnOk result
            (seat.new.seen ≡ at.now ++ event_by seat.old.number command.now reply.now ∷ []) }
        ensures seen { IfErr result (λ overtaken. SeesMore seat.old seat.new
            × (length seat.new.seen ≡ overtaken.front)) }
        ensures overtaken { IfErr result (λ overtaken. length at.now < overtaken.front) }
    {
        self.front.append(&mut seat.seat, &at.list, command, reply)
    }
}
