//! A line of a run.
ghost use Rattle.std.specs.Prelude.{◌≡◌, ◌++◌, OnOk, string_bytes};
ghost use Rattle.cap_replies.specs.Printed.{reply_text};

use crate::print_reply_json;
use cap_core::Reply;
use cap_script::{Line, write_reply};
use cap_value::{AllocHandle, OutOfMemory};

/// In which form replies are printed.
#[derive(Clone, Copy, Debug, PartialEq, Eq, Drop)]
pub enum ReplyForm {
    /// As text.
    Text,
    /// As a JSON object.
    Json,
}

/// A line of a workload, with its number and the form of its reply.
#[derive(Drop)]
pub struct RunLine<A: AllocHandle> {
    /// In which form its reply is printed.
    pub form: ReplyForm,
    /// Its number in the text, from 1. Ignored lines count as well.
    pub number: u64,
    /// The line.
    pub line: Line<A>,
}

/// Appends the reply to the command of a line to `out`, in the form that the line asks for, without a line feed
/// at its end.
pub fn write_run_reply<A: AllocHandle>(
    alloc: A,
    line: &RunLine<A>,
    reply: &Reply<A>,
    out: &mut String<A>,
) -> Result<(), OutOfMemory>
    ensures { OnOk result (string_bytes out.new ≡ string_bytes out.old ++ reply_text line.now reply.now) }
{
    match line.form {
        ReplyForm::Text => write_reply(alloc, &line.line, reply, out),
        ReplyForm::Json => {
            let text = print_reply_json(alloc, line.number, &line.line, reply)?;
            out.push_str(text.as_str())
        }
    }
}
