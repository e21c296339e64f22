//! What a change requires of one field.
ghost use Rattle.std.specs.Prelude.{◌≡◌};
ghost use Rattle.cap_changes.specs.FieldReading.{field_of};
ghost use Rattle.cap_changes.specs.Requirements.{new_requirement};

use cap_field::ValueRef;
use cap_value::AllocHandle;

/// A requirement on one field of a record.
#[derive(Clone, Copy, Debug, PartialEq, Eq)]
pub enum FieldRequirement {
    /// Defined, and not NULL: a key field.
    Key,
    /// Defined.
    Defined,
    /// Defined or not.
    Any,
    /// Not defined.
    Undefined,
    /// Not defined, and without a byte in the format.
    Omitted,
}

/// The requirement on a field of the new record of an UPDATE, by its old field: a key field is in the old
/// record only, any other field in both records or in neither.
pub(crate) fn requirement_beside<A: AllocHandle>(
    key: bool,
    old: Option<ValueRef<'_>>,
) -> FieldRequirement
    ensures { result ≡ new_requirement {A = A} (key, field_of old.entry) }
{
    if key || old.is_none() {
        FieldRequirement::Undefined
    } else {
        FieldRequirement::Defined
    }
}
