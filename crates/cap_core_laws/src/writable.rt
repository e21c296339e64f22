//! A law of captures: each can be written.
ghost use Rattle.std.specs.Prelude.{OnOk};
ghost use Rattle.cap_changes.specs.Patch.{patch_list_of};
ghost use Rattle.cap_codec.specs.Writable.{IsWritable};
ghost use Rattle.cap_codec.specs.declared.read.Contents.TheVariants as contents;

use cap_codec_laws::changes_are_writable;
use cap_core::Capture;
use cap_value::{AllocHandle, OutOfMemory};

/// A law: the changes of a capture can be written as a changeset, and their patches as a patchset. At run
/// time it makes the list, and visits each group.
pub fn a_capture_is_writable<A: AllocHandle>(
    capture: &Capture<A>,
    alloc: A,
) -> Result<(), OutOfMemory>
    ensures changeset { OnOk result (IsWritable (contents.Changes capture.now.changes)) }
    ensures patchset { OnOk result (IsWritable (contents.Patches (patch_list_of capture.now.changes))) }
{
    let changes = capture.changes(alloc)?;
    changes_are_writable(&changes);
    Ok(())
}
