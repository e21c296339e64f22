//! An iterator over the records of a table.
ghost use Rattle.std.specs.Prelude.{◌≡◌, length};
ghost use Rattle.std.specs.Iterator.{at_most};
ghost use Rattle.std.specs.Map.Iter.{TakesFirst, deref_pair};
ghost use Rattle.cap_session.specs.Code.Latest.{before_tree};

use crate::Record;
use cap_compare::Peekable;
use cap_row::Key;
use cap_tree::Iter;
use cap_value::AllocHandle;
use std::cmp::Ordering;
use std::iter::FusedIterator;
use std::marker::Model;

/// An iterator over the records of a table, in the order of their keys.
#[derive(Drop)]
pub struct RecordsIter<'a, A: AllocHandle> {
    latest: Option<(&'a Key<A>, &'a Record<A>)>,
    rest: Peekable<'a, Key<A>, Record<A>, A>,
}

impl<'a, A: AllocHandle> Model for RecordsIter<'a, A> {
    ghost use Rattle.cap_session.specs.Records.{Records};
    ghost use Rattle.cap_session.specs.Code.Latest.{before_tree};

    ghost Value = { Records A };

    ghost view = { λ i. before_tree i.latest i.rest };
}

impl<'a, A: AllocHandle> RecordsIter<'a, A> {
    // The records of a tree, and the one that was put last, if any.
    pub(crate) fn over(
        latest: Option<(&'a Key<A>, &'a Record<A>)>,
        tree: Iter<'a, Key<A>, Record<A>, A>,
    ) -> Self
        ensures { result ≡ before_tree latest.entry tree.entry }
    {
        RecordsIter {
            latest,
            rest: Peekable::of(tree),
        }
    }
}

impl<'a, A: AllocHandle> Iterator for RecordsIter<'a, A> {
    type Item = (&'a Key<A>, &'a Record<A>);

    ghost next_gives = { TakesFirst deref_pair };

    ghost remaining = { λ i. at_most (length i) };

    fn next(&mut self) -> Option<(&'a Key<A>, &'a Record<A>)> {
        match (self.latest, self.rest.next()) {
            (None, None) => None,
            (None, Some(next)) => {
                self.rest.pass();
                Some(next)
            }
            (Some(latest), None) => {
                self.latest = None;
                Some(latest)
            }
            (Some(latest), Some(next)) => match latest.0.cmp(next.0) {
                Ordering::Less => {
                    self.latest = None;
                    Some(latest)
                }
                Ordering::Equal => {
                    self.latest = None;
                    self.rest.pass();
                    Some(latest)
                }
                Ordering::Greater => {
                    self.rest.pass();
                    Some(next)
                }
            },
        }
    }
}

impl<'a, A: AllocHandle> FusedIterator for RecordsIter<'a, A> {}
