//! Bytes, written to the caller's buffer.
ghost use Rattle.std.specs.Prelude.{◌≡◌, ℕ, IfOk, List, Result, Some, length};
ghost use Rattle.cap_value.specs.Memory.{ShowsUnlessMemory};
ghost use Rattle.cap_blob.specs.declared.refusal.ChangesetRefusal.{ChangesetRefusal as Refused};
ghost use Rattle.cap_c.specs.Status.{room_status};
ghost use Rattle.cap_c.specs.Outputs.{Converts, OutputsMade, begins_with};
ghost use Rattle.cap_c.specs.declared.status.TheConstants.{OK, ROOM};

use crate::fault::PlacedFault;
use crate::status::{MALFORMED, NOMEM, OK, PATCHSET, ROOM};
use cap_blob::ChangesetRefusal;
use cap_value::{Fault, OutOfMemory};
use std::alloc::Global;

/// Writes the bytes to the beginning of the buffer, or sets how long they are where it has no room.
pub(crate) fn write_bytes(bytes: &[u8], out: &mut [u8], len: &mut usize) -> u32
    ensures status { result ≡ room_status (length bytes.now) (length out.old) }
    ensures len { len.new ≡ length bytes.now }
    ensures written { result ≡ OK → out.new ≡ begins_with bytes.now out.old }
    ensures out_kept { ¬ (result ≡ OK) → out.new ≡ out.old }
    ensures answered { ¬ (result ≡ OK) → result ≡ ROOM }
{
    *len = bytes.len();
    if out.len() < bytes.len() {
        return ROOM;
    }
    out[..bytes.len()].copy_from_slice(bytes);
    OK
}

/// Writes the bytes that were asked for, or sets the fault where there are none.
pub(crate) fn set_bytes(
    answer: Result<Vec<u8, Global>, Fault<ChangesetRefusal>>,
    out: &mut [u8],
    len: &mut usize,
    fault: &mut PlacedFault,
) -> u32
    ensures { (said : Result (List ℕ) Refused) → ShowsUnlessMemory (λ bytes. bytes.items) answer said →
        Converts said result out.old out.new len.old len.new fault.old fault.new }
{
    match answer {
        Ok(bytes) => write_bytes(bytes.as_slice(), out, len),
        Err(Fault::Refused(ChangesetRefusal::Malformed(wrong))) => {
            *fault = PlacedFault::of(wrong);
            MALFORMED
        }
        Err(Fault::Refused(ChangesetRefusal::Patchset)) => PATCHSET,
        Err(Fault::OutOfMemory) => NOMEM,
    }
}

/// Writes the bytes that were made, unless memory ran out.
pub(crate) fn write_made(
    made: Result<Vec<u8, Global>, OutOfMemory>,
    out: &mut [u8],
    len: &mut usize,
) -> u32
    ensures { (bytes : List ℕ) → IfOk made (λ made. made.items ≡ bytes) →
        OutputsMade (Some bytes) result out.old out.new len.old len.new }
{
    match made {
        Ok(record) => write_bytes(record.as_slice(), out, len),
        Err(_) => NOMEM,
    }
}
