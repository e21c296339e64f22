//! Passing over the records of a change in bytes that may be none.
ghost use Rattle.std.specs.Prelude.{◌≡◌, ◌≤◌, length, IfOk, IsOk};
ghost use Rattle.cap_field.specs.Reading.{Reads};
ghost use Rattle.cap_changes.specs.Requirements.{requirements, new_requirements};
ghost use Rattle.cap_changes.specs.RecordReading.{record_at, old_in};
ghost use Rattle.cap_changes.specs.ChangeReading.{behind};
ghost use Rattle.cap_changes.specs.declared.record_kind.RecordKind.TheVariants.{Keyed};

use crate::RecordKind;
use crate::field::{stored_field, take_field};
use crate::field_requirement::requirement_beside;
use cap_field::BlobFault;
use cap_value::AllocHandle;

/// The bytes behind a record of this kind.
#[tactic(auto, unfolding(crate::specs::RecordReading::record_at))]
pub(crate) fn pass_record<'a, A: AllocHandle>(
    total: usize,
    record_kind: RecordKind,
    flags: &[bool],
    bytes: &'a [u8],
) -> Result<&'a [u8], BlobFault>
    ensures reads { Reads (λ rest. rest.now) result
        (behind (record_at {A = A} total (requirements record_kind flags.now) bytes.now)) }
    ensures behind { IfOk result (λ rest. length rest.now ≤ length bytes.now) }
{
    let mut rest = bytes;
    for key in flags {
        let (_, after) = take_field::<A>(total, record_kind.requirement(*key), rest)?;
        rest = after;
    }
    Ok(rest)
}

/// The bytes behind the new record of an UPDATE, by its old record.
#[tactic(auto, unfolding(crate::specs::RecordReading::record_at), using(crate::proofs::PassLemmas::known_field, std::proofs::lemmas::Grind::common_steps))]
pub(crate) fn pass_new_record<'a, A: AllocHandle>(
    total: usize,
    flags: &[bool],
    old: &[u8],
    bytes: &'a [u8],
) -> Result<&'a [u8], BlobFault>
    requires { IsOk (record_at {A = A} total (requirements Keyed flags.now) old.now) }
    ensures reads { Reads (λ rest. rest.now) result
        (behind (record_at {A = A} total (new_requirements flags.now (old_in A total flags.now old.now)) bytes.now)) }
    ensures behind { IfOk result (λ rest. length rest.now ≤ length bytes.now) }
{
    let mut field = old;
    let mut rest = bytes;
    for key in flags {
        let (was, behind) = stored_field::<A>(field);
        let (_, after) = take_field::<A>(total, requirement_beside::<A>(*key, was), rest)?;
        field = behind;
        rest = after;
    }
    Ok(rest)
}
