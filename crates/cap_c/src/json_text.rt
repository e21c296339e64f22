//! Whole blobs as JSON.
ghost use Rattle.std.specs.Prelude.{◌≡◌, IfOk};
ghost use Rattle.cap_value.specs.Memory.{ShowsUnlessMemory};
ghost use Rattle.cap_c.specs.Json.{json_at, json_of};
ghost use Rattle.cap_c.specs.Outputs.{Converts};

use crate::fault::PlacedFault;
use crate::output::set_bytes;
use cap_blob::ChangesetRefusal;
use cap_codec::{Contents, read_blob};
use cap_show::{changeset_json, patchset_json};
use cap_value::{Fault, OutOfMemory};
use std::alloc::Global;

/// A changeset or a patchset as JSON: an array with an object for each change, on a line.
#[unsafe(no_mangle)]
pub extern "C" fn changecap_json(
    alloc: Global,
    blob: &[u8],
    out: &mut [u8],
    len: &mut usize,
    fault: &mut PlacedFault,
) -> u32
    ensures converted { Converts (json_at Global blob.now) result out.old out.new len.old len.new
        fault.old fault.new }
{
    set_bytes(json_bytes(alloc, blob), out, len, fault)
}

fn json_bytes(alloc: Global, blob: &[u8]) -> Result<Vec<u8, Global>, Fault<ChangesetRefusal>>
    ensures { ShowsUnlessMemory (λ text. text.items) result (json_at Global blob.now) }
{
    match read_blob(alloc, blob) {
        Ok(contents) => Ok(contents_json(alloc, &contents)?),
        Err(Fault::Refused(wrong)) => Err(Fault::Refused(ChangesetRefusal::Malformed(wrong))),
        Err(Fault::OutOfMemory) => Err(Fault::OutOfMemory),
    }
}

fn contents_json(alloc: Global, contents: &Contents<Global>) -> Result<Vec<u8, Global>, OutOfMemory>
    ensures { IfOk result (λ text. text.items ≡ json_of Global contents.now) }
{
    match contents {
        Contents::Changes(list) => changeset_json(alloc, list),
        Contents::Patches(list) => patchset_json(alloc, list),
    }
}
