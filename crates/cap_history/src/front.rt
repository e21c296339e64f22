//! The front word: the number of events that the history has.
ghost use Rattle.std.specs.Prelude.{◌≡◌, ◌<◌, [], ◌∷◌, ◌++◌, length, OnOk, IfErr};
ghost use Rattle.cap_core.specs.Answer.{event_by, reply_of};
ghost use Rattle.cap_core.specs.Past.{HasRoom};
ghost use Rattle.cap_history.specs.History.{own};
ghost use Rattle.cap_history.specs.Seat.{HasCalled, SeesMore, calls};

use crate::law::Law;
use crate::{List, Overtaken, Seat};
use cap_core::{Command, Event, Reply};
use cap_value::AllocHandle;
use logbook::Word;
use std::marker::Model;

/// The atomic word that all threads share: the number of events of the history. Contracts see the book, which
/// says which history it is.
#[derive(Drop)]
pub struct Front<A: AllocHandle> {
    pub(crate) word: Word<Event<A>, u64, Law>,
}

impl<A: AllocHandle> Model for Front<A> {
    ghost use Rattle.std.specs.Prelude.{◌≡◌};
    ghost use Rattle.logbook.specs.Pages.{Book, book_coded};
    ghost use Rattle.cap_history.specs.Rules.{word_of};

    ghost Value = { Book };

    ghost coded = { book_coded };

    ghost view = { λ f. f.word.book };

    ghost invariant = { λ f. f.word ≡ word_of f.word.book };
}

impl<A: AllocHandle> Front<A> {
    /// Lets the seat see the whole history, and gives the number of its events. It takes no lock.
    pub fn look(&self, seat: &mut Seat<A>) -> u64
        requires history { seat.old.book ≡ self.now }
        ensures history { seat.new.book ≡ seat.old.book }
        ensures seen { SeesMore seat.old.state seat.new.state }
        ensures front { result ≡ length seat.new.state.seen }
    {
        seat.seen.look(self);
        seat.seen.len()
    }

    /// Appends the seat's call with its reply to a list, where that is the whole history. Otherwise the
    /// history is longer, and the seat sees it. It is one compare-and-swap of the word, and takes no lock.
    pub fn append(
        &self,
        seat: &mut Seat<A>,
        at: &List<A>,
        command: &Command<A>,
        reply: &Reply<A>,
    ) -> Result<(), Overtaken>
        requires this { seat.old.book ≡ self.now }
        requires that { at.now.book ≡ self.now }
        requires room { HasRoom (length at.now.log) }
        requires reply { reply.now ≡ reply_of at.now.log command.now }
        requires calls { length (own seat.old.state.number at.now.log) ≡ length (calls seat.old.state) }
        ensures history { seat.new.book ≡ seat.old.book }
        ensures called { OnOk result (HasCalled seat.old.state seat.new.state command.now reply.now) }
        ensures added { OnOk result (seat.new.state.seen
            ≡ at.now.log ++ event_by seat.old.state.number command.now reply.now ∷ []) }
        ensures seen { IfErr result (λ overtaken. SeesMore seat.old.state seat.new.state
            × (length seat.new.state.seen ≡ overtaken.front)) }
        ensures overtaken { IfErr result (λ overtaken. length at.now.log < overtaken.front) }
    {
        let number = seat.number;
        match seat.seen.exchange(self, at, number, command, reply) {
            Ok(()) => {
                seat.answered = seat.seen.again();
                seat.calls += 1;
                Ok(())
            }
            Err(overtaken) => Err(overtaken),
        }
    }
}
