//! The text of what a transaction answers to a step.
ghost use Rattle.std.specs.Prelude.{◌≡◌, IfOk, string_bytes};
ghost use Rattle.cap_script.specs.StepText.{answer_text};

use crate::refusal_text::RefusalText;
use crate::row_text::{get_text, scan_text};
use cap_txn::Answer;
use cap_value::{AllocHandle, OutOfMemory};

/// The text of what the open transaction answers to a call, without a line feed at its end.
pub fn print_answer<A: AllocHandle>(alloc: A, answer: &Answer<A>) -> Result<String<A>, OutOfMemory>
    ensures { IfOk result (λ text. string_bytes text ≡ answer_text answer.now) }
{
    match answer {
        Answer::Done => String::from_str(alloc, "ok"),
        Answer::Refused(why) => format!(in alloc; "refused: {}", RefusalText(*why)),
        Answer::Row(row) => get_text(alloc, Ok(row.as_ref())),
        Answer::Rows(rows) => scan_text(alloc, Ok(rows.scan())),
        Answer::Mark(mark) => format!(in alloc; "savepoint {}", mark.number),
    }
}
