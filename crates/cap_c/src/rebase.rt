//! A changeset over the buffers of applications.
ghost use Rattle.std.specs.Prelude.{◌≡◌, ℕ, List, MatchOption, Result};
ghost use Rattle.cap_value.specs.Memory.{ShowsUnlessMemory};
ghost use Rattle.cap_rebase.specs.Bytes.{rebase_at};
ghost use Rattle.cap_rebase.specs.declared.refusal.NumberedRefusal.{NumberedRefusal as Refused};
ghost use Rattle.cap_c.specs.Numbers.{key_flags_of};
ghost use Rattle.cap_c.specs.Outputs.{Misuses};
ghost use Rattle.cap_c.specs.Rebased.{OutputsFault, Rebases, refused_status};
ghost use Rattle.cap_c.specs.declared.status.TheConstants.{COLUMNS, MALFORMED, PATCHSET};

use crate::fault::PlacedFault;
use crate::numbers::key_flags_of;
use crate::output::write_bytes;
use crate::status::{COLUMNS, MALFORMED, MISUSE, NOMEM, PATCHSET};
use cap_rebase::{BlobRefusal, NumberedRefusal, rebase_bytes};
use cap_value::Fault;
use std::alloc::Global;

/// A changeset over buffers, one behind the other, with the key flags of this number.
#[unsafe(no_mangle)]
pub extern "C" fn changecap_rebase(
    alloc: Global,
    changeset: &[u8],
    buffers: &[u8],
    key_flags: u32,
    out: &mut [u8],
    len: &mut usize,
    fault: &mut PlacedFault,
    blob: &mut usize,
) -> u32
    ensures rebased { MatchOption (key_flags_of key_flags)
        (Misuses result out.old out.new len.old len.new fault.old fault.new × (blob.new ≡ blob.old))
        (λ flags. Rebases (rebase_at Global flags changeset.now buffers.now) result
        out.old out.new len.old len.new fault.old fault.new blob.old blob.new) }
{
    let Some(flags) = key_flags_of(key_flags) else {
        return MISUSE;
    };
    set_rebased(
        rebase_bytes(alloc, flags, changeset, buffers),
        out,
        len,
        fault,
        blob,
    )
}

// Writes the bytes that were asked for, or sets which blob is refused, and its fault.
fn set_rebased(
    answer: Result<Vec<u8, Global>, Fault<NumberedRefusal>>,
    out: &mut [u8],
    len: &mut usize,
    fault: &mut PlacedFault,
    blob: &mut usize,
) -> u32
    ensures { (said : Result (List ℕ) Refused) → ShowsUnlessMemory (λ bytes. bytes.items) answer said →
        Rebases said result out.old out.new len.old len.new fault.old fault.new blob.old blob.new }
{
    match answer {
        Ok(bytes) => write_bytes(bytes.as_slice(), out, len),
        Err(Fault::Refused(refusal)) => {
            *blob = refusal.blob;
            set_refused(refusal.why, fault)
        }
        Err(Fault::OutOfMemory) => NOMEM,
    }
}

// Sets the fault of a blob that is refused, where it has one.
fn set_refused(why: BlobRefusal, fault: &mut PlacedFault) -> u32
    ensures status { result ≡ refused_status why }
    ensures outputs { OutputsFault why fault.new }
    ensures fault_kept { ¬ (result ≡ MALFORMED) → fault.new ≡ fault.old }
    ensures refused { ¬ (result ≡ MALFORMED) → ¬ (result ≡ PATCHSET) → result ≡ COLUMNS }
{
    match why {
        BlobRefusal::Malformed(wrong) => {
            *fault = PlacedFault::of(wrong);
            MALFORMED
        }
        BlobRefusal::Patchset => PATCHSET,
        BlobRefusal::Columns(_) => COLUMNS,
    }
}
