//! A peekable iterator over the entries of a tree.
ghost use Rattle.std.specs.Prelude.{◌≡◌, drop};
ghost use Rattle.cap_compare.specs.Beside.{taken};

use cap_tree::Iter;
use cap_value::AllocHandle;
use std::marker::Model;

/// A peekable iterator over the entries of a tree, in the order of their keys.
#[derive(Drop)]
pub struct Peekable<'a, K: Ord, V, A: AllocHandle> {
    next: Option<(&'a K, &'a V)>,
    behind: Iter<'a, K, V, A>,
}

impl<'a, K: Ord, V, A: AllocHandle> Model for Peekable<'a, K, V, A> {
    ghost use Rattle.std.specs.Prelude.{List};

    ghost Value = { List (K × V) };

    ghost use Rattle.cap_compare.specs.Beside.{taken};

    ghost view = { λ a. taken a.next a.behind };
}

impl<'a, K: Ord, V, A: AllocHandle> Peekable<'a, K, V, A> {
    /// The entries that an iterator has left.
    pub fn of(behind: Iter<'a, K, V, A>) -> Self
        ensures { result ≡ behind.entry }
    {
        let mut behind = behind;
        let next = behind.next();
        Peekable { next, behind }
    }

    /// The next entry, which is not taken.
    pub fn next(&self) -> Option<(&'a K, &'a V)>
        ensures { self.now ≡ taken result (drop 1 self.now) }
    {
        self.next
    }

    /// Passes the next entry, if there is one.
    pub fn pass(&mut self)
        ensures { self.new ≡ drop 1 self.old }
    {
        if self.next.is_some() {
            self.next = self.behind.next();
        }
    }
}
