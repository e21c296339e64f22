//! Iteration over two trees in step.
ghost use Rattle.std.specs.Prelude.{◌≡◌, length};
ghost use Rattle.std.specs.Iterator.{at_most};
ghost use Rattle.std.specs.Map.Iter.{ShowsInOrder, TakesFirst};
ghost use Rattle.cap_tree.specs.Tree.{IsOrdered, get};
ghost use Rattle.cap_compare.specs.Beside.{beside, both_at, values_beside};

use crate::peekable::Peekable;
use cap_tree::Tree;
use cap_value::AllocHandle;
use std::cmp::Ordering;
use std::iter::FusedIterator;
use std::marker::Model;

/// An iterator over the keys of two trees, in order, each with its value in either tree. At least one has a
/// value.
#[derive(Drop)]
pub struct Beside<'a, K: Ord, V, W, A: AllocHandle> {
    firsts: Peekable<'a, K, V, A>,
    seconds: Peekable<'a, K, W, A>,
}

impl<'a, K: Ord, V, W, A: AllocHandle> Model for Beside<'a, K, V, W, A> {
    ghost use Rattle.std.specs.Prelude.{List, Option};

    ghost Value = { List (K × (Option V × Option W)) };

    ghost use Rattle.cap_compare.specs.Beside.{beside};
    ghost use Rattle.cap_tree.specs.Tree.{IsOrdered};

    ghost view = { λ s. beside K.cmp s.firsts s.seconds };

    ghost invariant = { λ s. IsOrdered K.cmp s.firsts × IsOrdered K.cmp s.seconds };
}

impl<'a, K: Ord, V, W, A: AllocHandle> Beside<'a, K, V, W, A> {
    /// The keys of two trees, each once and in order, with its value in either. A whole iteration takes time
    /// in proportion to the entries of both.
    pub fn of(first: &'a Tree<K, V, A>, second: &'a Tree<K, W, A>) -> Self
        ensures rest { result ≡ beside K.cmp first.now second.now }
        ensures ordered { IsOrdered K.cmp result }
        ensures each { (key : K) → get K.cmp result key
            ≡ both_at (get K.cmp first.now key) (get K.cmp second.now key) }
        ensures runs { ShowsInOrder (values_beside {K = K} {V = V} {W = W}) }
    {
        Beside {
            firsts: Peekable::of(first.iter()),
            seconds: Peekable::of(second.iter()),
        }
    }
}

impl<'a, K: Ord, V, W, A: AllocHandle> Iterator for Beside<'a, K, V, W, A> {
    type Item = (&'a K, Option<&'a V>, Option<&'a W>);

    ghost next_gives = { TakesFirst values_beside };

    ghost remaining = { λ s. at_most (length s) };

    fn next(&mut self) -> Option<(&'a K, Option<&'a V>, Option<&'a W>)> {
        match (self.firsts.next(), self.seconds.next()) {
            (None, None) => None,
            (Some((key, value)), None) => {
                self.firsts.pass();
                Some((key, Some(value), None))
            }
            (None, Some((key, value))) => {
                self.seconds.pass();
                Some((key, None, Some(value)))
            }
            (Some((key, value)), Some((other, beside))) => match key.cmp(other) {
                Ordering::Less => {
                    self.firsts.pass();
                    Some((key, Some(value), None))
                }
                Ordering::Equal => {
                    self.firsts.pass();
                    self.seconds.pass();
                    Some((other, Some(value), Some(beside)))
                }
                Ordering::Greater => {
                    self.seconds.pass();
                    Some((other, None, Some(beside)))
                }
            },
        }
    }
}

impl<'a, K: Ord, V, W, A: AllocHandle> FusedIterator for Beside<'a, K, V, W, A> {}
