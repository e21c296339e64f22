//! What a step of a transaction or of an application led to, and how it is printed.
ghost use Rattle.std.specs.Prelude.{◌≡◌, ◌++◌, OnOk, string_bytes};
ghost use Rattle.cap_replies.specs.Outcomes.{outcome_text, step_text};

use crate::outcome_json::print_outcome_json;
use crate::{ReplyForm, RunLine};
use cap_script::print_answer;
use cap_txn::Answer;
use cap_value::{AllocHandle, OutOfMemory};

/// What a step of a transaction or of an application over several lines led to, where no command of the server answers it.
pub enum Outcome<A: AllocHandle> {
    /// The open transaction answered a call.
    Answer(Answer<A>),
    /// A transaction was begun.
    Begun,
    /// The open transaction was undone, and is over.
    RolledBack,
    /// No transaction is open.
    NoTransaction,
    /// A transaction or an application is open already.
    InTransaction,
    /// No application stands at a conflict.
    NoConflict,
    /// The application that is to end stands at a conflict.
    Unanswered,
    /// The row has another key than the change in whose place it is put.
    OtherKey,
}

// A derived `Drop` would be opened in each caller.
impl<A: AllocHandle> Drop for Outcome<A> {
    fn drop(self) {
        match self {
            Outcome::Answer(_) => {}
            Outcome::Begun => {}
            Outcome::RolledBack => {}
            Outcome::NoTransaction => {}
            Outcome::InTransaction => {}
            Outcome::NoConflict => {}
            Outcome::Unanswered => {}
            Outcome::OtherKey => {}
        }
    }
}

/// Appends what a step led to, in the form that its line asks for, to `out`, without a line feed at its end.
pub fn write_outcome<A: AllocHandle>(
    alloc: A,
    line: &RunLine<A>,
    outcome: &Outcome<A>,
    out: &mut String<A>,
) -> Result<(), OutOfMemory>
    ensures { OnOk result (string_bytes out.new ≡ string_bytes out.old ++ outcome_text line.now outcome.now) }
{
    match line.form {
        ReplyForm::Text => write_step(alloc, outcome, out),
        ReplyForm::Json => {
            let text = print_outcome_json(alloc, line.number, line.line.worker, outcome)?;
            out.push_str(text.as_str())
        }
    }
}

// Appends the text of what a step led to.
fn write_step<A: AllocHandle>(
    alloc: A,
    outcome: &Outcome<A>,
    out: &mut String<A>,
) -> Result<(), OutOfMemory>
    ensures { OnOk result (string_bytes out.new ≡ string_bytes out.old ++ step_text outcome.now) }
{
    match outcome {
        Outcome::Answer(answer) => {
            let text = print_answer(alloc, answer)?;
            out.push_str(text.as_str())
        }
        Outcome::Begun => out.push_str("ok"),
        Outcome::RolledBack => out.push_str("ok"),
        Outcome::NoTransaction => out.push_str("refused: E21 NoTransaction"),
        Outcome::InTransaction => out.push_str("refused: E22 InTransaction"),
        Outcome::NoConflict => out.push_str("refused: E23 NoConflict"),
        Outcome::Unanswered => out.push_str("refused: E24 Unanswered"),
        Outcome::OtherKey => out.push_str("refused: E25 OtherKey"),
    }
}
