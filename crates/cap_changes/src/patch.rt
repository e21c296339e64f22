//! The changes of a patchset.
ghost use Rattle.std.specs.Prelude.{◌≡◌};
ghost use Rattle.cap_changes.specs.ChangeReading.{patch_kind};

use crate::operation::Operation;
use crate::pass::pass_record;
use crate::{Entry, FieldRecord, RecordKind};
use cap_field::{BlobFault, take_byte};
use cap_value::AllocHandle;

/// The first byte of a group of a patchset.
pub const PATCHSET_KIND: u8 = 0x50;

/// One change of a patchset, which leaves out the old row but for its key (The Session Extension,
/// "sqlite3session_patchset"). A change is indirect where every touch of its row was.
///
/// No value of it is built: a group keeps the bytes, and lends the change as a `PatchRef`.
#[derive(Drop)]
pub enum Patch<A: AllocHandle> {
    /// An insert. Every field is defined.
    Insert {
        /// Whether it is indirect.
        indirect: bool,
        /// The row now.
        new: FieldRecord<A>,
    },
    /// An update: other values under the same key.
    Update {
        /// Whether it is indirect.
        indirect: bool,
        /// The key fields, and the modified fields as they are now.
        new: FieldRecord<A>,
    },
    /// A delete. Only the key fields are defined.
    Delete {
        /// Whether it is indirect.
        indirect: bool,
        /// The key fields.
        key: FieldRecord<A>,
    },
}

// The kind of the record of a change of a patchset.
fn patch_kind(operation: Operation) -> RecordKind
    ensures { result ≡ patch_kind operation }
{
    match operation {
        Operation::Insert => RecordKind::Full,
        Operation::Update => RecordKind::Keyed,
        Operation::Delete => RecordKind::KeyAlone,
    }
}

impl<A: AllocHandle> Entry for Patch<A> {
    ghost use Rattle.cap_changes.specs.ChangeBytes.{patch_bytes};
    ghost use Rattle.cap_changes.specs.KindByte.{patchset_kind};
    ghost use Rattle.cap_changes.specs.ChangeReading.{patch_at, stored_patch};
    ghost use Rattle.cap_changes.specs.Fits.{patch_fits};
    ghost use Rattle.cap_changes.specs.HasValues.{PatchHasValues};

    ghost fits_in = { λ flags patch. patch_fits flags patch };

    ghost has_values = { λ patch. PatchHasValues patch };

    ghost kind = { patchset_kind };

    ghost bytes_of = { λ patch. patch_bytes patch };

    ghost one_at = { λ total flags op bytes. patch_at total flags op bytes };

    ghost stored = { λ flags bytes. stored_patch flags bytes };

    fn kind() -> u8 {
        PATCHSET_KIND
    }

    #[tactic(auto, using(crate::proofs::Grammar::patch_read))]
    fn pass<'a>(
        total: usize,
        flags: &[bool],
        operation: Operation,
        given: &'a [u8],
    ) -> Result<&'a [u8], BlobFault> {
        let (_, first) = take_byte(total, given)?;
        pass_record::<A>(total, patch_kind(operation), flags, first)
    }
}
