//! Reads one line by itself.
ghost use Rattle.std.specs.Prelude.{IfOk, IfErr};
ghost use Rattle.cap_script.specs.ReadLine.{HasFault, IsFound};

use crate::ScriptFault;
use crate::fault::in_line;
use crate::line::{Line, is_ignored};
use cap_value::{AllocHandle, Fault};

/// The line with this text, or none where it is ignored. A fault has the number that is given.
///
/// As in a whole text, the fault is the first by offset, and at one token `Syntax` comes before `Limit`, and
/// `Limit` before `BadBlob`.
pub fn read_line<A: AllocHandle>(
    alloc: A,
    number: u64,
    text: &str,
) -> Result<Option<Line<A>>, Fault<ScriptFault>>
    // None where the line is ignored, and else what it spells within the limits.
    ensures found { IfOk result (λ found. IsFound found text.now) }
    // A line that spells a command within the limits is not refused. The fault is the line's, with the
    // number.
    ensures refused { IfErr result (λ fault. HasFault A number fault text.now) }
{
    if is_ignored(text) {
        return Ok(None);
    }
    match Line::parse(alloc, text) {
        Ok(line) => Ok(Some(line)),
        Err(fault) => Err(in_line(fault, number, text)),
    }
}
