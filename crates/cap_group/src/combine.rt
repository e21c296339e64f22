//! Changes that combine with a later one of the same row.
ghost use Rattle.std.specs.Prelude.{Bool, List, ℕ, Option, ◌≡◌, ◌++◌, IfOk, IsTrue, is_some};
ghost use Rattle.std.specs.List.{flat_map};
ghost use Rattle.std.specs.Option.{option_to_list};
ghost use Rattle.cap_row.specs.Fields.{Fields};
ghost use Rattle.cap_changes.specs.Stored.{IsEntry};
ghost use Rattle.cap_group.specs.ChangeKey.{key_values};
ghost use Rattle.cap_group.specs.Combined.{KeepRows};

use cap_changes::{Entry, EntryRef, RecordRef};
use cap_value::{AllocHandle, OutOfMemory};

/// A change of a changeset or of a patchset, which combines with a later one of the same row.
pub(crate) trait Combine<A: AllocHandle>: Entry {
    // The key of its row, by the key flags of its table.
    ghost key: { List Bool → Self → Fields A };
    // What becomes of the present change when one is added.
    ghost combined: { List Bool → Self → Self → Option Self };

    /// The record with the fields of the key of its row.
    fn key_record<'a>(change: &EntryRef<'a, Self>) -> RecordRef<'a, A>
    where
        Self: Sized,
        ensures { (flags : List Bool) → key_values flags result ≡ key flags change.now };

    /// Appends the bytes of what becomes of `present` when `added` follows, and answers whether anything does.
    fn push_combined(
        out: &mut Vec<u8, A>,
        flags: &[bool],
        present: &EntryRef<'_, Self>,
        added: &EntryRef<'_, Self>,
    ) -> Result<bool, OutOfMemory>
    where
        Self: Sized,
        ensures bytes { IfOk result (λ some. out.new.items ≡ out.old.items
            ++ flat_map Self.bytes_of (option_to_list (combined flags.now present.now added.now))) }
        ensures some { IfOk result (λ some. some ≡ is_some (combined flags.now present.now added.now)) };

    // A law: what two changes of one row become is a change of that row. Does nothing at run time.
    fn keeps_row()
        ensures { KeepRows Self.fits_in key Self.has_values combined };

    // The bytes of a change that fits are of just this one.
    ghost stored_again: { (flags : List Bool) (change : Self) (bytes : List ℕ) →
        IsTrue (Self.fits_in flags change) → Self.has_values change → bytes ≡ Self.bytes_of change →
        (Self.stored flags bytes ≡ change)
        × IsEntry Self.fits_in Self.has_values Self.bytes_of flags (Self.stored flags bytes) bytes };
}
