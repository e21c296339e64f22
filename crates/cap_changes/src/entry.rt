//! What a group holds.
ghost use Rattle.std.specs.Prelude.{◌≡◌, ℕ, Bool, List, Result, IfOk};
ghost use Rattle.cap_field.specs.Reading.{Reads};
ghost use Rattle.cap_field.specs.declared.fault.BlobFault.{BlobFault};
ghost use Rattle.cap_changes.specs.ChangeReading.{behind};
ghost use Rattle.cap_changes.specs.Operation.{operation_byte};
ghost use Rattle.cap_changes.specs.Stored.{IsPassed};

use crate::operation::Operation;
use cap_field::BlobFault;

/// An entry of a group: a change of a changeset or of a patchset.
pub trait Entry {
    // Whether it fits a table with these key flags.
    ghost fits_in: { List Bool → Self → Bool };
    // Each of its fields that is defined is a value.
    ghost has_values: { Self → Type 0 };
    // The first byte of a group of these.
    ghost kind: { ℕ };
    // Its bytes.
    ghost bytes_of: { Self → List ℕ };
    // The one behind its operation byte, and the bytes behind it, in a blob of so many bytes.
    ghost one_at: { ℕ → List Bool → ℕ → List ℕ → Result (Self × List ℕ) BlobFault };
    // The one with these bytes, in a group of these columns.
    ghost stored: { List Bool → List ℕ → Self };

    /// The first byte of a group of these.
    fn kind() -> u8
        ensures { result ≡ kind };

    /// The bytes behind the one behind its operation byte, in a blob of `total` bytes.
    fn pass<'a>(
        total: usize,
        flags: &[bool],
        operation: Operation,
        given: &'a [u8],
    ) -> Result<&'a [u8], BlobFault>
        ensures reads { Reads (λ rest. rest.now) result
            (behind (one_at total flags.now (operation_byte operation) given.now)) }
        ensures entry { IfOk result (λ rest. IsPassed fits_in has_values bytes_of stored one_at total
            flags.now (operation_byte operation) given.now rest.now) };
}
