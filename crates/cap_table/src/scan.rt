//! Iteration over all rows of a table.
ghost use Rattle.std.specs.Prelude.{◌≡◌, length};
ghost use Rattle.std.specs.Iterator.{at_most};
ghost use Rattle.std.specs.Map.Iter.{TakesFirst};
ghost use Rattle.cap_table.specs.Scan.{rows_from, row_shown};

use crate::RowName;
use cap_row::{Key, Row};
use cap_tree::{Iter, Tree};
use cap_value::AllocHandle;
use std::iter::FusedIterator;
use std::marker::Model;

/// The rows of a table that are still to come, each with its name: those with a key in the order of their
/// keys, and then the others by their ids.
#[derive(Drop)]
pub struct Scan<'a, A: AllocHandle> {
    keyed: Iter<'a, Key<A>, Row<A>, A>,
    loose: Iter<'a, u64, Row<A>, A>,
}

impl<'a, A: AllocHandle> Model for Scan<'a, A> {
    ghost use Rattle.std.specs.Prelude.{List};
    ghost use Rattle.cap_row.specs.Fields.{Fields};
    ghost use Rattle.cap_table.specs.declared.row_ref.RowRef.{RowRef};

    ghost Value = { List (RowRef A × Fields A) };

    ghost use Rattle.cap_table.specs.Scan.{rows_from};

    ghost view = { λ s. rows_from s.keyed s.loose };
}

impl<'a, A: AllocHandle> Scan<'a, A> {
    pub(crate) fn over(keyed: &'a Tree<Key<A>, Row<A>, A>, loose: &'a Tree<u64, Row<A>, A>) -> Self
        ensures { result ≡ rows_from keyed.now loose.now }
    {
        Scan {
            keyed: keyed.iter(),
            loose: loose.iter(),
        }
    }

    /// How many rows are still to come.
    pub fn left(&self) -> u128
        ensures { result ≡ length self.now }
    {
        self.keyed.len() as u128 + self.loose.len() as u128
    }
}

impl<'a, A: AllocHandle> Iterator for Scan<'a, A> {
    type Item = (RowName<'a, A>, &'a Row<A>);

    ghost next_gives = { TakesFirst row_shown };

    ghost remaining = { λ s. at_most (length s) };

    fn next(&mut self) -> Option<(RowName<'a, A>, &'a Row<A>)> {
        if let Some((key, row)) = self.keyed.next() {
            return Some((RowName::Key(key), row));
        }
        let (id, row) = self.loose.next()?;
        Some((RowName::Loose(*id), row))
    }
}

impl<'a, A: AllocHandle> FusedIterator for Scan<'a, A> {}
