//! Lists: what a caller has seen of a history that has a name.
ghost use Rattle.std.specs.Prelude.{◌≡◌, ◌⊎◌, length};
ghost use mathlib.Core.List.{IsPrefix};
ghost use Rattle.cap_history.specs.History.{IsHistory, longer};

use crate::{Front, Naming};
use cap_value::AllocHandle;
use std::marker::{Model, PhantomData};

/// A prefix of the history, as a caller has seen it. It stores the length; contracts see its events.
#[derive(Drop)]
pub struct List<J: Naming, A: AllocHandle> {
    pub(crate) list: cap_history::List<A>,
    pub(crate) of: PhantomData<J>,
}

impl<J: Naming, A: AllocHandle> Model for List<J, A> {
    ghost use Rattle.std.specs.Prelude.{◌≡◌, List};
    ghost use Rattle.std.specs.Coded.{codes};
    ghost use Rattle.cap_filter.specs.Rule.{coded_rule};
    ghost use Rattle.cap_core.specs.declared.event.Event.{Event};

    ghost Value = { List (Event A) };

    ghost coded = { Prim.hlevel (codes, coded_rule) };

    ghost view = { λ l. l.list.log };

    ghost invariant = { λ l. l.list.book ≡ J.book };
}

impl<J: Naming, A: AllocHandle> List<J, A> {
    /// The number of events.
    pub fn len(&self) -> u64
        ensures length { result ≡ length self.now }
        ensures history { IsHistory self.now }
    {
        self.list.len()
    }

    /// A copy.
    pub fn again(&self) -> List<J, A>
        ensures { result ≡ self.now }
    {
        List {
            list: self.list.again(),
            of: PhantomData,
        }
    }

    /// Becomes the longer of two lists. The shorter is a prefix of the longer.
    pub fn meet(&mut self, other: &List<J, A>)
        ensures longer { self.new ≡ longer self.old other.now }
        ensures this { IsPrefix self.old self.new }
        ensures that { IsPrefix other.now self.new }
        ensures history { IsHistory self.new }
    {
        self.list.meet(&other.list);
    }

    /// Reads the front word, and sees the whole history.
    pub fn look(&mut self, front: &Front<J, A>)
        ensures seen { IsPrefix self.old self.new }
        ensures history { IsHistory self.new }
    {
        self.list.look(&front.front);
    }
}

/// Of two lists of one history, one is a prefix of the other.
pub fn one_begins_the_other<J: Naming, A: AllocHandle>(first: &List<J, A>, second: &List<J, A>)
    ensures { IsPrefix first.now second.now ⊎ IsPrefix second.now first.now }
{
    cap_history::one_begins_the_other(&first.list, &second.list);
}
