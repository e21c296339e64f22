//! The object of what a step of a transaction led to.
ghost use Rattle.std.specs.Prelude.{◌≡◌, ◌++◌, ◌∷◌, [], IfOk, codes, string_bytes};
ghost use Rattle.std.specs.Option.{option_copied};
ghost use Rattle.json.specs.Token as token;
ghost use Rattle.cap_replies.specs.OutcomeJson.{answer_members, outcome_json, outcome_members, row_answer};
ghost use Rattle.cap_replies.specs.OutcomeJson.{rows_answer};
ghost use Rattle.cap_replies.specs.ReplyJson as spec;
ghost use Rattle.cap_show.specs.Json.{Appends};

use crate::Outcome;
use crate::members::{write_kind, write_number};
use crate::reply_json::{text_of, write_line};
use crate::report::{write_named_refusal, write_refused};
use crate::rows::{write_found, write_rows};
use cap_row::Row;
use cap_table::Rows;
use cap_txn::Answer;
use cap_value::{AllocHandle, OutOfMemory};
use json::Writer;

// What a step of the line with this number led to, as JSON, without a line feed at its end: an object.
#[tactic(auto, unfolding(crate::specs::OutcomeJson::outcome_json))]
pub(crate) fn print_outcome_json<A: AllocHandle>(
    alloc: A,
    number: u64,
    worker: Option<u64>,
    outcome: &Outcome<A>,
) -> Result<String<A>, OutOfMemory>
    ensures { IfOk result (λ text. string_bytes text ≡ outcome_json number worker outcome.now) }
{
    let mut writer = Writer::new(Vec::new(alloc));
    write_object(alloc, &mut writer, number, worker, outcome)?;
    text_of(writer)
}

fn write_object<A: AllocHandle>(
    alloc: A,
    writer: &mut Writer<A>,
    number: u64,
    worker: Option<u64>,
    outcome: &Outcome<A>,
) -> Result<(), OutOfMemory>
    ensures { Appends result writer.old writer.new (token.begin_object
        ∷ (spec.line_members number worker
        ++ (outcome_members outcome.now ++ token.end_object ∷ []))) }
{
    writer.begin_object()?;
    write_line(writer, number, worker)?;
    write_outcome(alloc, writer, outcome)?;
    writer.end_object()
}

fn write_outcome<A: AllocHandle>(
    alloc: A,
    writer: &mut Writer<A>,
    outcome: &Outcome<A>,
) -> Result<(), OutOfMemory>
    ensures { Appends result writer.old writer.new (outcome_members outcome.now) }
{
    match outcome {
        Outcome::Answer(answer) => write_answer(alloc, writer, answer),
        Outcome::Begun => write_kind(writer, "done"),
        Outcome::RolledBack => write_kind(writer, "done"),
        Outcome::NoTransaction => write_named_refusal(writer, "E21 NoTransaction"),
        Outcome::InTransaction => write_named_refusal(writer, "E22 InTransaction"),
        Outcome::NoConflict => write_named_refusal(writer, "E23 NoConflict"),
        Outcome::Unanswered => write_named_refusal(writer, "E24 Unanswered"),
        Outcome::OtherKey => write_named_refusal(writer, "E25 OtherKey"),
    }
}

// Writes what the open transaction answers to a call.
fn write_answer<A: AllocHandle>(
    alloc: A,
    writer: &mut Writer<A>,
    answer: &Answer<A>,
) -> Result<(), OutOfMemory>
    ensures { Appends result writer.old writer.new (answer_members answer.now) }
{
    match answer {
        Answer::Done => write_kind(writer, "done"),
        Answer::Refused(why) => write_refused(writer, None, *why),
        Answer::Row(row) => write_row_answer(alloc, writer, row.as_ref()),
        Answer::Rows(rows) => write_rows_answer(alloc, writer, rows),
        Answer::Mark(mark) => write_savepoint(writer, mark.number),
    }
}

// Writes a row as it stands in the transaction, or null.
fn write_row_answer<A: AllocHandle>(
    alloc: A,
    writer: &mut Writer<A>,
    found: Option<&Row<A>>,
) -> Result<(), OutOfMemory>
    ensures { Appends result writer.old writer.new (row_answer (option_copied found.entry)) }
{
    write_kind(writer, "row")?;
    writer.key("row")?;
    write_found(alloc, writer, found)
}

// Writes all rows of a table as they stand in the transaction.
fn write_rows_answer<A: AllocHandle>(
    alloc: A,
    writer: &mut Writer<A>,
    rows: &Rows<A>,
) -> Result<(), OutOfMemory>
    ensures { Appends result writer.old writer.new (rows_answer rows.now) }
{
    write_kind(writer, "rows")?;
    write_rows(alloc, writer, rows.scan())
}

fn write_savepoint<A: AllocHandle>(writer: &mut Writer<A>, number: u64) -> Result<(), OutOfMemory>
    ensures { Appends result writer.old writer.new
        (spec.kind (codes "savepoint") ++ spec.number_member (codes "savepoint") number) }
{
    write_kind(writer, "savepoint")?;
    write_number(writer, "savepoint", number)
}
