//! Groups: the changes of one table.
ghost use mathlib.Core.List.{IsPrefix};
ghost use Rattle.std.specs.Prelude.{◌≡◌, ℕ, List, ◌++◌, ◌∷◌, ◌≤◌, [], IsTrue, IfOk, OnOk, OnErr, Ok, length, take, All};
ghost use Rattle.std.specs.List.{cons_option, flat_map};
ghost use Rattle.std.specs.Option.{option_copied, ForSome};
ghost use Rattle.cap_value.specs.Memory.{ShowsUnlessMemory};
ghost use Rattle.cap_row.specs.Schema.{has_key};
ghost use Rattle.cap_changes.specs.Change as touched;
ghost use Rattle.cap_changes.specs.ChangeReading.{changes_at, with_changes};
ghost use Rattle.cap_changes.specs.Entries.{AllFit, IsFitting};
ghost use Rattle.cap_changes.specs.Fits.{change_fits};
ghost use Rattle.cap_changes.specs.Invert.{inverse_of};
ghost use Rattle.cap_changes.specs.Judged.{HaveFlags, Judged, front_of, group_of, joined, with_flags};
ghost use Rattle.cap_changes.specs.Made as made;
ghost use Rattle.cap_changes.specs.Patch.{patch_of};
ghost use Rattle.cap_changes.specs.Stored.{IsEntry, IsKept};
ghost use Rattle.cap_changes.specs.Touched.{is_changed};

use crate::entries::start_at;
use crate::inverse::write_inverses;
use crate::operation::Operation;
use crate::patches::push_patch;
use crate::touched::{are_values, push_change};
use crate::{Entries, Entry, EntryRef, Patch, RowChange};
use cap_field::BlobFault;
use cap_row::{Row, Schema};
use cap_value::{AllocHandle, Fault, Name, OutOfMemory};
use std::marker::{Model, PhantomData};

/// The changes of one table in a changeset.
pub type Group<A> = TableGroup<RowChange<A>, A>;

/// The changes of one table in a patchset.
pub type PatchGroup<A> = TableGroup<Patch<A>, A>;

/// The changes of one table, of a changeset or of a patchset, kept as their bytes.
///
/// Its schema has a key column, and each change fits the schema.
#[derive(Drop)]
pub struct TableGroup<C: Entry, A: AllocHandle> {
    table: Name<A>,
    schema: Schema<A>,
    // The bytes of the changes, one after the other, and where each ends.
    bytes: Vec<u8, A>,
    ends: Vec<usize, A>,
    marker: PhantomData<C>,
}

impl<C: Entry, A: AllocHandle> Model for TableGroup<C, A> {
    ghost use Rattle.cap_changes.specs.Entries.{TableEntries};
    ghost use Rattle.cap_changes.specs.Stored.{entries_of, IsKept};

    ghost Value = { TableEntries C };

    ghost view = { λ g. record {
      table = g.table;
      schema = g.schema;
      changes = entries_of C.stored g.schema g.bytes.items 0 g.ends.items;
    } };

    ghost invariant = { λ g. IsKept C.fits_in C.has_values C.bytes_of C.stored
        g.schema g.bytes.items g.ends.items };
}

impl<C: Entry, A: AllocHandle> TableGroup<C, A> {
    /// A group without changes. Takes no memory.
    pub fn new(alloc: A, table: Name<A>, schema: Schema<A>) -> Self
        requires { IsTrue (has_key schema) }
        ensures { result ≡ record { table = table; schema = schema; changes = [] } }
    {
        TableGroup {
            table,
            schema,
            bytes: Vec::new(alloc),
            ends: Vec::new(alloc),
            marker: PhantomData,
        }
    }

    /// Appends the change with these bytes. On `OutOfMemory` the group is unchanged.
    pub fn push(&mut self, change: &[u8]) -> Result<(), OutOfMemory>
        requires { IsEntry C.fits_in C.has_values C.bytes_of self.old.schema
            (C.stored self.old.schema change.now) change.now }
        ensures ok { OnOk result (self.new ≡ record self.old {
          changes = self.old.changes
              ++ C.stored self.old.schema change.now ∷ [];
        }) }
        ensures err { OnErr result (self.new ≡ self.old) }
    {
        let before = self.bytes.len();
        let pushed = self.bytes.extend_from_slice(change);
        end(&mut self.bytes, &mut self.ends, before, pushed)
    }

    /// Appends the changes that these bytes begin with, the last ones of a blob of `total` bytes, and answers
    /// the bytes behind them. Refused with the first fault from left to right where they are malformed.
    pub fn push_read<'a>(
        &mut self,
        total: usize,
        bytes: &'a [u8],
    ) -> Result<&'a [u8], Fault<BlobFault>>
        ensures gives { ShowsUnlessMemory (λ rest. (self.new, rest.now)) result
            (with_changes self.old (changes_at C.one_at (length bytes.now) total self.old.schema bytes.now)) }
        ensures behind { IfOk result (λ rest. length rest.now ≤ length bytes.now) }
    {
        let count = self.ends.len();
        let flags = self.schema.flags();
        let read = read_changes::<C, A>(total, flags, bytes, &mut self.bytes, &mut self.ends);
        if read.is_err() {
            self.ends.truncate(count);
        }
        read
    }

    /// Keeps the first changes, so many of them.
    pub fn truncate(&mut self, count: usize)
        ensures { self.new ≡ record self.old { changes = take count self.old.changes } }
    {
        if count >= self.ends.len() {
            return;
        }
        let end = start_at(0, self.ends.as_slice(), count);
        self.ends.truncate(count);
        self.bytes.truncate(end);
    }

    /// The table's name.
    pub fn table(&self) -> &Name<A>
        ensures { result.now ≡ self.now.table }
    {
        &self.table
    }

    /// The table's columns. At least one is in the primary key.
    pub fn schema(&self) -> &Schema<A>
        ensures schema { result.now ≡ self.now.schema }
        ensures keyed { IsTrue (has_key self.now.schema) }
    {
        &self.schema
    }

    /// The changes, in order.
    #[tactic(auto, using(crate::proofs::StoredEntries::all_fit, crate::proofs::StoredEntries::all_values))]
    pub fn changes(&self) -> Entries<'_, C>
        ensures changes { result ≡ self.now.changes }
        ensures fit { AllFit C.fits_in self.now.schema self.now.changes }
        ensures values { All C.has_values self.now.changes }
    {
        Entries::of(
            self.schema.flags(),
            self.bytes.as_slice(),
            self.ends.as_slice(),
        )
    }

    /// The bytes of the changes, one after the other.
    #[tactic(auto, using(crate::proofs::StoredEntries::spelled))]
    pub fn as_bytes(&self) -> &[u8]
        ensures { result.now ≡ flat_map C.bytes_of self.now.changes }
    {
        self.bytes.as_slice()
    }

    /// The same group.
    pub fn copy(&self) -> Result<Self, OutOfMemory>
        ensures { IfOk result (λ copy. copy ≡ self.now) }
    {
        Ok(TableGroup {
            table: self.table.copy()?,
            schema: self.schema.copy()?,
            bytes: self.bytes.clone()?,
            ends: self.ends.clone()?,
            marker: PhantomData,
        })
    }

    /// A law: the schema has a key column, and each change fits it. Does nothing at run time.
    #[tactic(auto, using(crate::proofs::StoredEntries::all_fit))]
    pub fn fits(&self)
        ensures { IsFitting C.fits_in self.now }
    {
        let _changes = &self.ends;
    }
}

// A change was appended to so many bytes, or only a part of it, which is taken off.
#[inline(always)]
fn end<A: AllocHandle>(
    bytes: &mut Vec<u8, A>,
    ends: &mut Vec<usize, A>,
    before: usize,
    pushed: Result<(), OutOfMemory>,
) -> Result<(), OutOfMemory>
    ensures ok { OnOk result ((pushed ≡ Ok tt) × (bytes.new.items ≡ bytes.old.items)
        × (ends.new.items ≡ ends.old.items ++ length bytes.old.items ∷ [])) }
    ensures err { OnErr result ((bytes.new.items ≡ take before bytes.old.items)
        × (ends.new.items ≡ ends.old.items)) }
{
    if pushed.is_ok() && ends.push(bytes.len()).is_ok() {
        return Ok(());
    }
    bytes.truncate(before);
    Err(OutOfMemory)
}

// Appends the changes that these bytes begin with to the held ones, and answers the bytes behind them.
fn read_changes<'a, C: Entry, A: AllocHandle>(
    total: usize,
    flags: &[bool],
    bytes: &'a [u8],
    held: &mut Vec<u8, A>,
    ends: &mut Vec<usize, A>,
) -> Result<&'a [u8], Fault<BlobFault>>
    requires { IsKept C.fits_in C.has_values C.bytes_of C.stored flags.now held.old.items ends.old.items }
    ensures kept { IfOk result (λ rest. IsKept C.fits_in C.has_values C.bytes_of C.stored flags.now
        held.new.items ends.new.items) }
    ensures gives { (table : List ℕ) → ShowsUnlessMemory
        (λ rest. (group_of C.stored table flags.now held.new.items ends.new.items, rest.now)) result
        (with_changes (group_of C.stored table flags.now held.old.items ends.old.items)
        (changes_at C.one_at (length bytes.now) total flags.now bytes.now)) }
    ensures behind { IfOk result (λ rest. length rest.now ≤ length bytes.now) }
    ensures begins { IsPrefix ends.old.items ends.new.items }
    ensures held { OnErr result (held.new.items ≡ held.old.items) }
{
    let start = held.len();
    let count = ends.len();
    let rest = judge::<C, A>(total, flags, bytes, held.as_slice(), ends)?;
    held.extend_from_slice(&bytes[..bytes.len() - rest.len()])?;
    write_flags(held.as_mut_slice(), start, &ends.as_slice()[count..]);
    Ok(rest)
}

// Judges the changes that these bytes begin with, notes where each ends behind the held ones, and answers
// the bytes behind them.
fn judge<'a, C: Entry, A: AllocHandle>(
    total: usize,
    flags: &[bool],
    bytes: &'a [u8],
    held: &[u8],
    ends: &mut Vec<usize, A>,
) -> Result<&'a [u8], Fault<BlobFault>>
    requires { IsKept C.fits_in C.has_values C.bytes_of C.stored flags.now held.now ends.old.items }
    ensures judged { IfOk result (λ rest. Judged C.fits_in C.has_values C.bytes_of C.stored flags.now
        held.now ends.old.items bytes.now rest.now ends.new.items) }
    ensures gives { (table : List ℕ) → ShowsUnlessMemory
        (λ rest. (
          group_of C.stored table flags.now (joined held.now ends.old.items
              (front_of bytes.now rest.now) ends.new.items) ends.new.items,
          rest.now,
        )) result
        (with_changes (group_of C.stored table flags.now held.now ends.old.items)
        (changes_at C.one_at (length bytes.now) total flags.now bytes.now)) }
    ensures begins { IsPrefix ends.old.items ends.new.items }
{
    let mut rest = bytes;
    while let [byte, behind @ ..] = rest {
        let Some(operation) = Operation::of(*byte) else {
            break;
        };
        let after = C::pass(total, flags, operation, behind)?;
        let end = held.len() + (bytes.len() - after.len());
        if ends.push(end).is_err() {
            return Err(Fault::OutOfMemory);
        }
        rest = after;
    }
    Ok(rest)
}

// Writes any indirect flag but zero as one, of the changes that end at these places.
#[tactic(auto, using(crate::proofs::ChangeLoops::next_flag))]
fn write_flags(bytes: &mut [u8], start: usize, ends: &[usize])
    requires { HaveFlags (length bytes.old) start ends.now }
    ensures { bytes.new ≡ with_flags bytes.old start ends.now }
{
    let mut begin = start;
    for end in ends {
        bytes[begin + 1] = (bytes[begin + 1] != 0) as u8;
        begin = *end;
    }
}

impl<A: AllocHandle> TableGroup<RowChange<A>, A> {
    /// Appends the change of a touched key, which has changed: `image` is its first image, `now` its row now.
    /// On `OutOfMemory` the group is unchanged.
    pub fn push_between(
        &mut self,
        indirect: bool,
        image: Option<&Row<A>>,
        now: Option<&Row<A>>,
    ) -> Result<(), OutOfMemory>
        requires image_keyed { ForSome (option_copied image) (touched.IsKeyedRow self.old.schema) }
        requires now_keyed { ForSome (option_copied now) (touched.IsKeyedRow self.old.schema) }
        requires same_key { ForSome (option_copied image) (λ before.
            ForSome (option_copied now) (touched.HaveSameKey self.old.schema before)) }
        requires changed { IsTrue (is_changed (option_copied image) (option_copied now)) }
        ensures ok { OnOk result (self.new ≡ record self.old {
          changes = self.old.changes ++ cons_option
              (touched.change_of self.old.schema indirect (option_copied image.entry)
              (option_copied now.entry)) [];
        }) }
        ensures err { OnErr result (self.new ≡ self.old) }
    {
        // For the proof: the values of both rows are within their limits.
        are_values(image);
        are_values(now);
        let before = self.bytes.len();
        let pushed = push_change(&mut self.bytes, &self.schema, indirect, image, now);
        end(&mut self.bytes, &mut self.ends, before, pushed)
    }

    /// Writes the inverse of each change over it: those before one whose memory is refused, or all.
    pub(crate) fn invert(&mut self) -> Result<(), OutOfMemory>
        ensures { OnOk result (self.new ≡ made.group_of inverse_of self.old) }
    {
        let alloc = *self.bytes.allocator();
        write_inverses(
            alloc,
            self.schema.flags(),
            self.ends.as_slice(),
            self.bytes.as_mut_slice(),
        )
    }
}

impl<A: AllocHandle> TableGroup<Patch<A>, A> {
    /// Finds room for the patches of a group: as many, in no more bytes.
    pub(crate) fn reserve_for(&mut self, group: &Group<A>) -> Result<(), OutOfMemory>
        ensures { self.new ≡ self.old }
    {
        self.bytes.reserve(group.bytes.len())?;
        self.ends.reserve(group.ends.len())?;
        Ok(())
    }

    /// Appends the patch of a change.
    pub(crate) fn push_patch_of(
        &mut self,
        change: &EntryRef<'_, RowChange<A>>,
    ) -> Result<(), OutOfMemory>
        requires { IsTrue (change_fits self.old.schema change.now) }
        ensures { OnOk result (self.new ≡ record self.old {
          changes = self.old.changes
              ++ patch_of self.old.schema change.now ∷ [];
        }) }
    {
        // For the proof: a clause says that its fields are values.
        let _bytes = change.as_bytes();
        let before = self.bytes.len();
        let pushed = push_patch(&mut self.bytes, self.schema.flags(), change);
        end(&mut self.bytes, &mut self.ends, before, pushed)
    }
}
