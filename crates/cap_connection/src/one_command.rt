//! A text that is one command.
ghost use Rattle.std.specs.Prelude.{IfErr, IfOk, List, ⊤};
ghost use Rattle.cap_value.specs.Memory.{MatchFault};
ghost use Rattle.cap_script.specs.Script.{SpellsScript};
ghost use Rattle.cap_script.specs.declared.line.Line.{Line as Spelled};
ghost use Rattle.std.specs.Global.{Global as Heap};
ghost use Rattle.cap_connection.specs.OneCommand.{IsNotOne, IsOnly, SpellsOne};

use crate::fault::TextFault;
use cap_script::{Line, Lines};
use cap_value::{Fault, OutOfMemory};
use std::alloc::Global;

/// The line that the text spells, where it is one.
pub(crate) fn one_command(alloc: Global, text: &[u8]) -> Result<Line<Global>, Fault<TextFault>>
    ensures one { IfOk result (λ line. SpellsOne line text.now) }
    ensures not_one { IfErr result (λ fault. MatchFault fault ⊤ (λ why. IsNotOne text.now why)) }
{
    let Ok(text) = str::from_utf8(text) else {
        return Err(Fault::Refused(TextFault::NotOne));
    };
    let mut lines = match Lines::new(alloc, text) {
        Ok(lines) => lines,
        Err(Fault::Refused(fault)) => return Err(Fault::Refused(TextFault::InLine(fault))),
        Err(Fault::OutOfMemory) => return Err(Fault::OutOfMemory),
    };
    match only_line(&mut lines) {
        Ok(Some(line)) => Ok(line),
        Ok(None) => Err(Fault::Refused(TextFault::NotOne)),
        Err(_) => Err(Fault::OutOfMemory),
    }
}

// The line that remains, where it is one.
fn only_line(lines: &mut Lines<'_, Global>) -> Result<Option<Line<Global>>, OutOfMemory>
    ensures { IfOk result (λ found. (spelled : List (Spelled Heap)) → SpellsScript spelled lines.old →
        IsOnly found spelled) }
{
    let Some(line) = lines.next_line()? else {
        return Ok(None);
    };
    match lines.next_line()? {
        Some(_) => Ok(None),
        None => Ok(Some(line)),
    }
}
