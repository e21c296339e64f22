//! Where an application stands, and how it is printed.
ghost use Rattle.std.specs.Prelude.{◌≡◌, ◌++◌, OnOk, string_bytes};
ghost use Rattle.cap_replies.specs.Stops.{stop_text};

use crate::stop_json::print_stop_json;
use crate::{ReplyForm, RunLine};
use cap_applier::Applier;
use cap_script::print_stop;
use cap_value::{AllocHandle, OutOfMemory};

/// Appends the conflict at which an application stands, or that it stands at its end, in the form that the line
/// asks for, to `out`, without a line feed at its end.
pub fn write_stop<A: AllocHandle>(
    alloc: A,
    line: &RunLine<A>,
    applier: &Applier<A>,
    out: &mut String<A>,
) -> Result<(), OutOfMemory>
    ensures { OnOk result (string_bytes out.new ≡ string_bytes out.old ++ stop_text line.now applier.now) }
{
    match line.form {
        ReplyForm::Text => {
            let text = print_stop(alloc, applier)?;
            out.push_str(text.as_str())
        }
        ReplyForm::Json => {
            let text = print_stop_json(alloc, line.number, line.line.worker, applier)?;
            out.push_str(text.as_str())
        }
    }
}
