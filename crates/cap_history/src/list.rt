//! Lists: what a caller has seen of the history.
ghost use Rattle.std.specs.Prelude.{◌≡◌, ◌<◌, ◌⊎◌, [], ◌∷◌, ◌++◌, length, OnOk, IfErr};
ghost use mathlib.Core.List.{IsPrefix};
ghost use Rattle.cap_core.specs.Answer.{event_by, reply_of};
ghost use Rattle.cap_core.specs.Past.{HasRoom};
ghost use Rattle.cap_history.specs.History.{IsHistory, longer};

use crate::law::{Add, Call, Law, Look, Nothing};
use crate::{Front, Overtaken};
use cap_core::{Command, Event, Reply};
use cap_value::AllocHandle;
use logbook::{Offer, Seen};
use std::marker::Model;

/// A prefix of the history, as a caller has seen it. It stores the length; contracts see its events, and the
/// book, which says which history it is.
#[derive(Drop)]
pub struct List<A: AllocHandle> {
    pub(crate) len: u64,
    pub(crate) seen: Seen<Event<A>, u64, Law>,
}

impl<A: AllocHandle> Model for List<A> {
    ghost use Rattle.std.specs.Prelude.{◌≡◌, length};
    ghost use Rattle.std.specs.Coded.{codes};
    ghost use Rattle.cap_filter.specs.Rule.{coded_rule};
    ghost use Rattle.cap_history.specs.History.{IsHistory};
    ghost use Rattle.cap_history.specs.Seen.{ListState};

    ghost Value = { ListState A };

    ghost coded = { Prim.hlevel (codes, coded_rule) };

    ghost view = { λ l. record { book = l.seen.book; log = l.seen.log } };

    ghost invariant = { λ l. (l.len ≡ length l.seen.log) × IsHistory l.seen.log };
}

impl<A: AllocHandle> List<A> {
    /// The number of events.
    pub fn len(&self) -> u64
        ensures length { result ≡ length self.now.log }
        ensures history { IsHistory self.now.log }
    {
        self.len
    }

    /// A copy.
    pub fn again(&self) -> List<A>
        ensures { result ≡ self.now }
    {
        List {
            len: self.len,
            seen: self.seen.again(),
        }
    }

    /// Becomes the longer of two lists. The shorter is a prefix of the longer.
    pub fn meet(&mut self, other: &List<A>)
        requires book { other.now.book ≡ self.old.book }
        ensures book { self.new.book ≡ self.old.book }
        ensures longer { self.new.log ≡ longer self.old.log other.now.log }
        ensures this { IsPrefix self.old.log self.new.log }
        ensures that { IsPrefix other.now.log self.new.log }
        ensures history { IsHistory self.new.log }
    {
        one_begins_the_other(self, other);
        if self.len < other.len {
            *self = other.again();
        }
    }

    /// Reads the front word, and sees the whole history.
    pub fn look(&mut self, front: &Front<A>)
        requires book { self.old.book ≡ front.now }
        ensures book { self.new.book ≡ self.old.book }
        ensures seen { IsPrefix self.old.log self.new.log }
        ensures history { IsHistory self.new.log }
    {
        let mut offer: Offer<Event<A>, u64, Law, Nothing> = self
            .seen
            .plain::<Nothing, (), Look>(&());
        self.len = front.word.load::<Look, Nothing>(&mut self.seen, &mut offer);
    }

    // Appends a call to `at`, by one exchange of the front word, where that is the whole history. From then
    // on the call is an event. Otherwise the history is longer, and this list sees it.
    pub(crate) fn exchange(
        &mut self,
        front: &Front<A>,
        at: &List<A>,
        by: u64,
        command: &Command<A>,
        reply: &Reply<A>,
    ) -> Result<(), Overtaken>
        requires this { self.old.book ≡ front.now }
        requires that { at.now.book ≡ front.now }
        requires room { HasRoom (length at.now.log) }
        requires reply { reply.now ≡ reply_of at.now.log command.now }
        ensures book { self.new.book ≡ self.old.book }
        ensures at { OnOk result (IsPrefix self.old.log at.now.log) }
        ensures added { OnOk result (self.new.log ≡ at.now.log ++ event_by by command.now reply.now ∷ []) }
        ensures seen { IfErr result (λ _. IsPrefix self.old.log self.new.log) }
        ensures front { IfErr result (λ overtaken. length self.new.log ≡ overtaken.front) }
        ensures overtaken { IfErr result (λ overtaken. length at.now.log < overtaken.front) }
        ensures history { IsHistory self.new.log }
    {
        cap_core::laws::legal_histories_grow::<A>();
        cap_core::laws::fitting_histories_grow::<A>();
        command.blob_fits();
        self.seen.learn(&at.seen);
        let call = Call { by, command, reply };
        let mut offer: Offer<Event<A>, u64, Law, Nothing> = self
            .seen
            .plain::<Nothing, Call<A>, Add>(&call);
        let mut pen = self.seen.no_pen();
        let found = front
            .word
            .compare_exchange::<Add, Nothing>(
                at.len,
                at.len + 1,
                &mut self.seen,
                &mut offer,
                &mut pen,
            );
        if found == at.len {
            self.len = found + 1;
            Ok(())
        } else {
            self.len = found;
            Err(Overtaken { front: found })
        }
    }
}

/// Of two lists of one history, one is a prefix of the other.
pub fn one_begins_the_other<A: AllocHandle>(first: &List<A>, second: &List<A>)
    requires book { second.now.book ≡ first.now.book }
    ensures { IsPrefix first.now.log second.now.log ⊎ IsPrefix second.now.log first.now.log }
{
    let mut both = first.seen.again();
    both.learn(&second.seen);
}
