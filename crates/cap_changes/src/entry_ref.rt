//! The entries of a group, as references to their bytes.
ghost use Rattle.std.specs.Prelude.{◌≡◌, ◌≤◌, ◌∷◌, drop, length, take};
ghost use Rattle.cap_changes.specs.ChangeBytes.{flag_byte};
ghost use Rattle.cap_changes.specs.ChangeRef.{change_of, patch_of};
ghost use Rattle.cap_changes.specs.Operation.{operation_byte};
ghost use Rattle.cap_changes.specs.Record.{fields_of, IsRecord};
ghost use Rattle.cap_changes.specs.Stored.{IsEntry, StartsEntry};

use crate::field::stored_field;
use crate::operation::Operation;
use crate::{ChangeRef, Entry, Patch, PatchRef, RecordRef, RowChange};
use cap_value::AllocHandle;
use std::marker::{Model, PhantomData};

/// An entry of a group, as a reference to its bytes.
#[derive(Drop)]
pub struct EntryRef<'a, C: Entry> {
    // The columns of its group.
    flags: &'a [bool],
    bytes: &'a [u8],
    marker: PhantomData<C>,
}

impl<'a, C: Entry> Model for EntryRef<'a, C> {
    ghost use Rattle.cap_changes.specs.Stored.{IsEntry};

    ghost Value = { C };

    ghost view = { λ e. C.stored e.flags.now e.bytes.now };

    ghost invariant = { λ e. IsEntry C.fits_in C.has_values C.bytes_of e.flags.now
        (C.stored e.flags.now e.bytes.now) e.bytes.now };
}

impl<'a, C: Entry> EntryRef<'a, C> {
    /// The entry with these bytes, in a group of these columns.
    #[inline(always)]
    pub fn of(flags: &'a [bool], bytes: &'a [u8]) -> Self
        requires { IsEntry C.fits_in C.has_values C.bytes_of flags.now (C.stored flags.now bytes.now) bytes.now }
        ensures { result ≡ C.stored flags.now bytes.now }
    {
        EntryRef {
            flags,
            bytes,
            marker: PhantomData,
        }
    }

    /// Its bytes.
    #[inline(always)]
    pub fn as_bytes(&self) -> &'a [u8]
        ensures bytes { result.now ≡ C.bytes_of self.now }
        ensures values { C.has_values self.now }
    {
        self.bytes
    }
}

// What an entry does, whether it is indirect, and the bytes of its records.
#[inline(always)]
fn parts(bytes: &[u8]) -> (Operation, bool, &[u8])
    requires { StartsEntry bytes.now }
    ensures { bytes.now ≡ operation_byte result.0 ∷ flag_byte result.1 ∷ result.2.now }
{
    match bytes {
        [byte, indirect, records @ ..] => match Operation::of(*byte) {
            Some(operation) => (operation, *indirect != 0, records),
            None => unreachable!(),
        },
        _ => unreachable!(),
    }
}

// The first fields of a record, so many of them, and those behind them.
#[inline(always)]
#[tactic(auto, using(crate::proofs::LeftLemmas::is_field, crate::proofs::LeftLemmas::apart))]
fn split_record<A: AllocHandle>(width: usize, bytes: &[u8]) -> (RecordRef<'_, A>, RecordRef<'_, A>)
    requires is { IsRecord {A = A} bytes.now (fields_of bytes.now) }
    requires wide { width ≤ length (fields_of {A = A} bytes.now) }
    ensures first { result.0 ≡ take width (fields_of bytes.now) }
    ensures others { result.1 ≡ drop width (fields_of bytes.now) }
{
    let mut rest = bytes;
    for _column in 0..width {
        let (_, after) = stored_field::<A>(rest);
        rest = after;
    }
    let (first, others) = bytes.split_at(bytes.len() - rest.len());
    (RecordRef::of(first), RecordRef::of(others))
}

impl<'a, A: AllocHandle> EntryRef<'a, RowChange<A>> {
    /// The change, as references into its bytes.
    pub fn read(&self) -> ChangeRef<'a, A>
        ensures { change_of result ≡ self.now }
    {
        let (operation, indirect, records) = parts(self.bytes);
        match operation {
            Operation::Insert => ChangeRef::Insert {
                indirect,
                new: RecordRef::of(records),
            },
            Operation::Update => {
                let (old, new) = split_record(self.flags.len(), records);
                ChangeRef::Update { indirect, old, new }
            }
            Operation::Delete => ChangeRef::Delete {
                indirect,
                old: RecordRef::of(records),
            },
        }
    }
}

impl<'a, A: AllocHandle> EntryRef<'a, Patch<A>> {
    /// The change, as references into its bytes.
    pub fn read(&self) -> PatchRef<'a, A>
        ensures { patch_of result ≡ self.now }
    {
        let (operation, indirect, records) = parts(self.bytes);
        match operation {
            Operation::Insert => PatchRef::Insert {
                indirect,
                new: RecordRef::of(records),
            },
            Operation::Update => PatchRef::Update {
                indirect,
                new: RecordRef::of(records),
            },
            Operation::Delete => PatchRef::Delete {
                indirect,
                key: RecordRef::of_key(self.flags, records),
            },
        }
    }
}
