//! An iterator over the attached tables of a session.
ghost use Rattle.std.specs.Prelude.{◌≡◌, length};
ghost use Rattle.std.specs.Iterator.{at_most};
ghost use Rattle.std.specs.Map.Iter.{TakesFirst, deref_pair};

use crate::Records;
use cap_value::{AllocHandle, Name};
use indexmap::map::Slice;
use std::iter::FusedIterator;
use std::marker::Model;

/// An iterator over attached tables, in the order in which they were attached, each with its records.
#[derive(Drop)]
pub struct Attached<'a, A: AllocHandle> {
    tables: Slice<'a, Name<A>, Records<A>>,
}

impl<'a, A: AllocHandle> Model for Attached<'a, A> {
    ghost use Rattle.cap_session.specs.Session.{AttachedTables};

    ghost Value = { AttachedTables A };

    ghost view = { λ a. a.tables };
}

impl<'a, A: AllocHandle> Attached<'a, A> {
    pub(crate) fn over(tables: Slice<'a, Name<A>, Records<A>>) -> Self
        ensures { result ≡ tables.entry }
    {
        Attached { tables }
    }
}

impl<'a, A: AllocHandle> Iterator for Attached<'a, A> {
    type Item = (&'a Name<A>, &'a Records<A>);

    ghost next_gives = { TakesFirst deref_pair };

    ghost remaining = { λ a. at_most (length a) };

    fn next(&mut self) -> Option<(&'a Name<A>, &'a Records<A>)> {
        let (first, tables) = self.tables.split_first()?;
        self.tables = tables;
        Some(first)
    }
}

impl<'a, A: AllocHandle> FusedIterator for Attached<'a, A> {}
