//! The entries of a group, one after another.
ghost use Rattle.std.specs.Prelude.{◌≡◌, ◌<◌, ◌==◌, List, length, slice_get};
ghost use Rattle.std.specs.Map.Iter.{TakesFirst};
ghost use Rattle.std.specs.Iterator.{at_most};
ghost use Rattle.cap_changes.specs.Stored.{entries_of, start_of, AreEntries};

use crate::{Entry, EntryRef};
use std::marker::{Model, PhantomData};

/// The entries of a group that are left to go over.
#[derive(Drop)]
pub struct Entries<'a, C: Entry> {
    // The columns of the group.
    flags: &'a [bool],
    // The bytes of all entries of the group.
    bytes: &'a [u8],
    // Where the next one begins, and where each that is left ends.
    start: usize,
    ends: &'a [usize],
    marker: PhantomData<C>,
}

impl<'a, C: Entry> Model for Entries<'a, C> {
    ghost use Rattle.std.specs.Prelude.{List};
    ghost use Rattle.cap_changes.specs.Stored.{entries_of, AreEntries};

    ghost Value = { List C };

    ghost view = { λ e. entries_of C.stored e.flags.now e.bytes.now e.start e.ends.now };

    ghost invariant = { λ e. AreEntries C.fits_in C.has_values C.bytes_of C.stored
        e.flags.now e.bytes.now e.start e.ends.now };
}

impl<'a, C: Entry> Entries<'a, C> {
    #[inline(always)]
    pub(crate) fn of(flags: &'a [bool], bytes: &'a [u8], ends: &'a [usize]) -> Self
        requires { AreEntries C.fits_in C.has_values C.bytes_of C.stored flags.now bytes.now 0 ends.now }
        ensures { result ≡ entries_of C.stored flags.now bytes.now 0 ends.now }
    {
        Entries {
            flags,
            bytes,
            start: 0,
            ends,
            marker: PhantomData,
        }
    }

    /// How many are left.
    #[inline(always)]
    #[tactic(auto, using(crate::proofs::StoredEntries::as_many))]
    pub fn len(&self) -> usize
        ensures { result ≡ length self.now }
    {
        self.ends.len()
    }

    /// Whether none is left.
    #[inline(always)]
    #[tactic(auto, using(crate::proofs::StoredEntries::as_many))]
    pub fn is_empty(&self) -> bool
        ensures { result ≡ (length self.now == 0) }
    {
        self.ends.is_empty()
    }

    /// The next one.
    #[inline(always)]
    pub fn next_entry(&mut self) -> Option<EntryRef<'a, C>>
        ensures { TakesFirst (λ entry. entry) self.old result self.new }
    {
        let [end, others @ ..] = self.ends else {
            return None;
        };
        let entry = EntryRef::of(self.flags, &self.bytes[self.start..*end]);
        self.start = *end;
        self.ends = others;
        Some(entry)
    }

    /// The one so many places on, none behind the last.
    #[tactic(auto, using(crate::proofs::StoredEntries::lent_at, crate::proofs::StoredEntries::as_many, std::proofs::lemmas::Option::slice_get_past))]
    pub fn get(&self, place: usize) -> Option<EntryRef<'a, C>>
        ensures { result ≡ slice_get self.now place }
    {
        if place >= self.ends.len() {
            return None;
        }
        let start = start_at(self.start, self.ends, place);
        Some(EntryRef::of(self.flags, &self.bytes[start..self.ends[place]]))
    }
}

// Where the entry so many places on begins, by where each ends.
#[tactic(auto, using(crate::proofs::StoredEntries::start_behind))]
pub(crate) fn start_at(start: usize, ends: &[usize], place: usize) -> usize
    requires { place < length ends.now }
    ensures { result ≡ start_of start ends.now place }
{
    if place == 0 { start } else { ends[place - 1] }
}

impl<'a, C: Entry> Iterator for Entries<'a, C> {
    type Item = EntryRef<'a, C>;

    ghost next_gives = { TakesFirst (λ entry. entry) };

    ghost remaining = { λ e. at_most (length e) };

    fn next(&mut self) -> Option<EntryRef<'a, C>> {
        self.next_entry()
    }
}
