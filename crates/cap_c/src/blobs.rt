//! Whole blobs: the check of one, its inverse and its patchset.
ghost use Rattle.std.specs.Prelude.{◌≡◌, MatchOption};
ghost use Rattle.cap_blob.specs.Converted.{inverse_at, patchset_at};
ghost use Rattle.cap_codec.specs.BlobReading.{blob_at};
ghost use Rattle.cap_codec.specs.Spelling.{Spells};
ghost use Rattle.cap_codec.specs.declared.read.Contents.{Contents as Spelled};
ghost use Rattle.cap_c.specs.Numbers.{key_flags_of};
ghost use Rattle.cap_c.specs.Outputs.{Checks, Converts, Misuses};
ghost use Rattle.cap_c.specs.declared.status.TheConstants.{OK};

use crate::fault::PlacedFault;
use crate::numbers::key_flags_of;
use crate::output::set_bytes;
use crate::status::{MALFORMED, MISUSE, NOMEM, OK};
use cap_blob::{invert_bytes, patchset_bytes};
use cap_codec::read_blob;
use cap_value::Fault;
use std::alloc::Global;

/// Whether the bytes are a blob, a changeset or a patchset: `OK`, or `MALFORMED` with the fault.
#[unsafe(no_mangle)]
pub extern "C" fn changecap_check(alloc: Global, blob: &[u8], fault: &mut PlacedFault) -> u32
    ensures checked { Checks (blob_at {A = Global} blob.now) result fault.old fault.new }
    // Just where the bytes spell something.
    ensures spelled { result ≡ OK → (contents : Spelled Global) × Spells contents blob.now }
{
    match read_blob(alloc, blob) {
        Ok(_) => OK,
        Err(Fault::Refused(wrong)) => {
            *fault = PlacedFault::of(wrong);
            MALFORMED
        }
        Err(Fault::OutOfMemory) => NOMEM,
    }
}

/// The inverse of a changeset, with the key flags of this number.
#[unsafe(no_mangle)]
pub extern "C" fn changecap_invert(
    alloc: Global,
    blob: &[u8],
    key_flags: u32,
    out: &mut [u8],
    len: &mut usize,
    fault: &mut PlacedFault,
) -> u32
    ensures converted { MatchOption (key_flags_of key_flags)
        (Misuses result out.old out.new len.old len.new fault.old fault.new)
        (λ flags. Converts (inverse_at Global flags blob.now) result out.old out.new len.old len.new
        fault.old fault.new) }
{
    let Some(flags) = key_flags_of(key_flags) else {
        return MISUSE;
    };
    set_bytes(invert_bytes(alloc, flags, blob), out, len, fault)
}

/// The patchset of a changeset, with the key flags of this number.
#[unsafe(no_mangle)]
pub extern "C" fn changecap_patchset(
    alloc: Global,
    blob: &[u8],
    key_flags: u32,
    out: &mut [u8],
    len: &mut usize,
    fault: &mut PlacedFault,
) -> u32
    ensures converted { MatchOption (key_flags_of key_flags)
        (Misuses result out.old out.new len.old len.new fault.old fault.new)
        (λ flags. Converts (patchset_at Global flags blob.now) result out.old out.new len.old len.new
        fault.old fault.new) }
{
    let Some(flags) = key_flags_of(key_flags) else {
        return MISUSE;
    };
    set_bytes(patchset_bytes(alloc, flags, blob), out, len, fault)
}
