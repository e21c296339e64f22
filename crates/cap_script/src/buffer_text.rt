//! The text of the buffer of an apply.
ghost use Rattle.std.specs.Prelude.{◌≡◌, ◌++◌, IfOk, OnOk, string_bytes};
ghost use Rattle.cap_script.specs.ReplyText.{buffer_digits, buffer_text};

use crate::reply::hex_or_dash;
use cap_apply::Conflict;
use cap_codec::{Contents, KeyFlags, write_changes_with};
use cap_core::Command;
use cap_rebase::buffer_of;
use cap_value::{AllocHandle, OutOfMemory};

// Appends the buffer of the command, an apply that met these conflicts, to `out`, after a line feed.
pub(crate) fn write_buffer<A: AllocHandle>(
    alloc: A,
    command: &Command<A>,
    conflicts: &[Conflict],
    out: &mut String<A>,
) -> Result<(), OutOfMemory>
    ensures { OnOk result (string_bytes out.new
        ≡ string_bytes out.old ++ buffer_text command.now conflicts.now) }
{
    match command {
        Command::Apply { blob, .. } => {
            let digits = buffer_digits(alloc, blob, conflicts)?;
            out.push_str("\nbuffer ")?;
            out.push_str(digits.as_str())
        }
        _ => Ok(()),
    }
}

// The buffer in hex digits, or `none` for a patchset, which has no buffer.
fn buffer_digits<A: AllocHandle>(
    alloc: A,
    blob: &Contents<A>,
    conflicts: &[Conflict],
) -> Result<String<A>, OutOfMemory>
    ensures { IfOk result (λ text. string_bytes text ≡ buffer_digits blob.now conflicts.now) }
{
    match blob {
        Contents::Changes(list) => {
            let buffer = buffer_of(alloc, list, conflicts)?;
            let bytes = write_changes_with(alloc, KeyFlags::Ones, &buffer)?;
            hex_or_dash(alloc, bytes.as_slice())
        }
        Contents::Patches(_) => String::from_str(alloc, "none"),
    }
}
