//! The concatenation of two blobs.
ghost use Rattle.std.specs.Prelude.{◌≡◌, ℕ, List, [], ◌∷◌, MatchOption, Result};
ghost use Rattle.cap_value.specs.Memory.{ShowsUnlessMemory};
ghost use Rattle.cap_group.specs.Bytes.{concat_at};
ghost use Rattle.cap_group.specs.declared.refusal.ConcatRefusal.{ConcatRefusal as Refused};
ghost use Rattle.cap_c.specs.Numbers.{key_flags_of};
ghost use Rattle.cap_c.specs.Status.{refused_status};
ghost use Rattle.cap_c.specs.Outputs.{Concatenates, Misuses, OutputsFault};
ghost use Rattle.cap_c.specs.declared.status.TheConstants.{COLUMNS, KIND, MALFORMED};

use crate::fault::PlacedFault;
use crate::numbers::key_flags_of;
use crate::output::write_bytes;
use crate::status::{COLUMNS, KIND, MALFORMED, MISUSE, NOMEM};
use cap_group::{BlobRefusal, ConcatRefusal, GroupRefusal, concat_bytes};
use cap_value::Fault;
use std::alloc::Global;

/// The concatenation of two blobs of one kind, with the key flags of this number.
#[unsafe(no_mangle)]
pub extern "C" fn changecap_concat(
    alloc: Global,
    first: &[u8],
    second: &[u8],
    key_flags: u32,
    out: &mut [u8],
    len: &mut usize,
    fault: &mut PlacedFault,
    blob: &mut usize,
) -> u32
    ensures concatenated { MatchOption (key_flags_of key_flags)
        (Misuses result out.old out.new len.old len.new fault.old fault.new × (blob.new ≡ blob.old))
        (λ flags. Concatenates (concat_at Global flags (first.now ∷ second.now ∷ [])) result
        out.old out.new len.old len.new fault.old fault.new blob.old blob.new) }
{
    let Some(flags) = key_flags_of(key_flags) else {
        return MISUSE;
    };
    set_concat(
        concat_bytes(alloc, flags, &[first, second]),
        out,
        len,
        fault,
        blob,
    )
}

// Writes the bytes that were asked for, or sets which blob is refused, and its fault.
fn set_concat(
    answer: Result<Vec<u8, Global>, Fault<ConcatRefusal>>,
    out: &mut [u8],
    len: &mut usize,
    fault: &mut PlacedFault,
    blob: &mut usize,
) -> u32
    ensures { (said : Result (List ℕ) Refused) → ShowsUnlessMemory (λ bytes. bytes.items) answer said →
        Concatenates said result out.old out.new len.old len.new fault.old fault.new blob.old blob.new }
{
    match answer {
        Ok(bytes) => write_bytes(bytes.as_slice(), out, len),
        Err(Fault::Refused(refusal)) => {
            *blob = refusal.blob;
            set_refused(refusal.why, fault)
        }
        Err(Fault::OutOfMemory) => NOMEM,
    }
}

// Sets the fault of a blob that is refused, where it has one.
fn set_refused(why: BlobRefusal, fault: &mut PlacedFault) -> u32
    ensures status { result ≡ refused_status why }
    ensures outputs { OutputsFault why fault.new }
    ensures fault_kept { ¬ (result ≡ MALFORMED) → fault.new ≡ fault.old }
    ensures refused { ¬ (result ≡ MALFORMED) → ¬ (result ≡ KIND) → result ≡ COLUMNS }
{
    match why {
        BlobRefusal::Malformed(wrong) => {
            *fault = PlacedFault::of(wrong);
            MALFORMED
        }
        BlobRefusal::Group(GroupRefusal::OtherKind) => KIND,
        BlobRefusal::Group(GroupRefusal::OtherColumns { .. }) => COLUMNS,
    }
}
