//! Reads a whole workload.
ghost use Rattle.std.specs.Prelude.{◌≡◌, ◌++◌, ◌∷◌, [], IfOk, IfErr, OnOk};
ghost use Rattle.cap_script.specs.FirstRefused.{FaultOfFirstRefused};
ghost use Rattle.cap_script.specs.LineLimits.{AreWithinLimits};
ghost use Rattle.cap_script.specs.RefusedLines.{NoLines};
ghost use Rattle.cap_script.specs.Script.{SpellsScript};
ghost use Rattle.cap_script.specs.declared.line.Line.{Line};

use crate::rest::Rest;
use crate::{Line, ScriptFault};
use cap_value::{AllocHandle, Fault, OutOfMemory};

/// The commands of a workload.
#[derive(Drop)]
pub struct Workload<A: AllocHandle> {
    /// The lines with a command, in order.
    pub lines: Vec<Line<A>, A>,
}

/// The workload with this text. Lines end at a line feed, which the last may lack.
///
/// Refused with the first fault by line, and within a line by offset. At one token `Syntax` comes before
/// `Limit`, and `Limit` before `BadBlob`.
pub fn parse<A: AllocHandle>(alloc: A, text: &str) -> Result<Workload<A>, Fault<ScriptFault>>
    // The text spells the workload, which is within the limits.
    ensures spelled { IfOk result (λ workload. SpellsScript workload.lines.items text.now) }
    ensures within { IfOk result (λ workload. AreWithinLimits workload.lines.items text.now) }
    // A text that spells lines within the limits is not refused.
    ensures none { IfErr result (λ fault. NoLines A fault text.now) }
    // A fault is that of the first line that is neither ignored nor a command within the limits.
    ensures first { IfErr result (λ fault. FaultOfFirstRefused A 1 fault text.now) }
{
    let mut rest = Rest::new(text);
    let mut lines = Vec::new(alloc);
    while let Some(line) = rest.read(alloc)? {
        push_line(&mut lines, line)?;
    }
    Ok(Workload { lines })
}

// Appends the line.
fn push_line<A: AllocHandle>(
    lines: &mut Vec<Line<A>, A>,
    line: Line<A>,
) -> Result<(), Fault<ScriptFault>>
    ensures pushed { OnOk result (lines.new.items ≡ lines.old.items ++ line ∷ []) }
    ensures memory { IfErr result (λ fault. fault ≡ Fault.OutOfMemory) }
{
    Ok(lines.push(line).map_err(OutOfMemory::from)?)
}
