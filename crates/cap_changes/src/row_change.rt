//! The changes of a changeset.
use crate::operation::Operation;
use crate::pass::{pass_new_record, pass_record};
use crate::{Entry, FieldRecord, RecordKind};
use cap_field::{BlobFault, take_byte};
use cap_value::AllocHandle;

/// The first byte of a group of a changeset.
pub const CHANGESET_KIND: u8 = 0x54;

/// One change of a changeset: a row was inserted, updated or deleted. A change is indirect where every touch
/// of its row was (The Session Extension, "sqlite3session_indirect").
///
/// No value of it is built: a group keeps the bytes, and lends the change as a `ChangeRef`.
#[derive(Drop)]
pub enum RowChange<A: AllocHandle> {
    /// An insert. Every field is defined.
    Insert {
        /// Whether it is indirect.
        indirect: bool,
        /// The row now.
        new: FieldRecord<A>,
    },
    /// An update: other values under the same key.
    Update {
        /// Whether it is indirect.
        indirect: bool,
        /// The row before: its key fields and its modified fields.
        old: FieldRecord<A>,
        /// The row now: its modified fields only.
        new: FieldRecord<A>,
    },
    /// A delete. Every field is defined.
    Delete {
        /// Whether it is indirect.
        indirect: bool,
        /// The row before.
        old: FieldRecord<A>,
    },
}

impl<A: AllocHandle> Entry for RowChange<A> {
    ghost use Rattle.cap_changes.specs.ChangeBytes.{change_bytes};
    ghost use Rattle.cap_changes.specs.KindByte.{changeset_kind};
    ghost use Rattle.cap_changes.specs.ChangeReading.{change_at, stored_change};
    ghost use Rattle.cap_changes.specs.Fits.{change_fits};
    ghost use Rattle.cap_changes.specs.HasValues.{HasValues};

    ghost fits_in = { λ flags change. change_fits flags change };

    ghost has_values = { λ change. HasValues change };

    ghost kind = { changeset_kind };

    ghost bytes_of = { λ change. change_bytes change };

    ghost one_at = { λ total flags op bytes. change_at total flags op bytes };

    ghost stored = { λ flags bytes. stored_change flags bytes };

    fn kind() -> u8 {
        CHANGESET_KIND
    }

    #[tactic(auto, unfolding(crate::specs::ChangeReading::change_at))]
    fn pass<'a>(
        total: usize,
        flags: &[bool],
        operation: Operation,
        given: &'a [u8],
    ) -> Result<&'a [u8], BlobFault> {
        let (_, first) = take_byte(total, given)?;
        match operation {
            Operation::Insert | Operation::Delete => {
                pass_record::<A>(total, RecordKind::Full, flags, first)
            }
            Operation::Update => {
                let new = pass_record::<A>(total, RecordKind::Keyed, flags, first)?;
                pass_new_record::<A>(total, flags, first, new)
            }
        }
    }
}
