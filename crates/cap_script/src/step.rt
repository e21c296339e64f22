//! Steps of a transaction or of an application over several lines, and the readers of their words.
ghost use Rattle.std.specs.Prelude.{◌≡◌};
ghost use Rattle.cap_language.specs.Grammar.{Reads, read};
ghost use Rattle.cap_script.specs.Language.{back, called, cascaded, delete, insert, put, rollback};
ghost use Rattle.cap_script.specs.Language.{spelled_step, update};

use crate::Show;
use crate::command::Spelled;
use crate::operation::{cascaded, delete, insert, update};
use cap_apply::Answer;
use cap_codec::Contents;
use cap_core::Command;
use cap_database::Cause;
use cap_filter::TableFilter;
use cap_language::{Cursor, LineFault, row};
use cap_row::Row;
use cap_txn::{Asked, Mark};
use cap_value::AllocHandle;

/// A step of a transaction over several lines, or of an application that stops at each conflict.
pub enum Step<A: AllocHandle> {
    /// Begins a transaction.
    Begin,
    /// A call of the open one: an operation, a savepoint, or the way back to one.
    Call(Asked<A>),
    /// Ends it, and undoes it.
    Rollback,
    /// Ends it, and commits its batch.
    End,
    /// Opens an application of a blob, to the tables that the filter accepts, where there is one.
    ApplyEach(Contents<A>, Option<TableFilter<A>>),
    /// Answers the conflict at which the open application stands.
    Answer(Answer),
    /// Puts a row in place of the change that met it.
    Put(Row<A>),
}

// A derived `Drop` would be opened in each caller.
impl<A: AllocHandle> Drop for Step<A> {
    fn drop(self) {
        match self {
            Step::Begin => {}
            Step::Call(_) => {}
            Step::Rollback => {}
            Step::End => {}
            Step::ApplyEach(_, _) => {}
            Step::Answer(_) => {}
            Step::Put(_) => {}
        }
    }
}

// A step. Where no transaction can be open, its line only reads.
pub(crate) fn spelled_step<A: AllocHandle>(taken: Step<A>) -> Spelled<A>
    ensures { result ≡ spelled_step taken }
{
    Spelled::Whole(Command::Read, Show::Step(taken))
}

// Reads a new row, which the open transaction inserts: `T (V,..)`.
pub(crate) fn inserted<A: AllocHandle>(
    alloc: A,
    cursor: &mut Cursor<'_>,
) -> Result<Spelled<A>, LineFault>
    ensures reads { Reads result cursor.new.rest.now
        (read (called (insert Cause.Direct)) cursor.old.rest.now) }
{
    let op = insert(alloc, cursor, Cause::Direct)?;
    Ok(spelled_step(Step::Call(Asked::Op(op))))
}

// Reads a row and what the open transaction sets in it: `T REF set I = V , ..`.
pub(crate) fn updated<A: AllocHandle>(
    alloc: A,
    cursor: &mut Cursor<'_>,
) -> Result<Spelled<A>, LineFault>
    ensures reads { Reads result cursor.new.rest.now
        (read (called (update Cause.Direct)) cursor.old.rest.now) }
{
    let op = update(alloc, cursor, Cause::Direct)?;
    Ok(spelled_step(Step::Call(Asked::Op(op))))
}

// Reads a row, which the open transaction deletes: `T REF`.
pub(crate) fn deleted<A: AllocHandle>(
    alloc: A,
    cursor: &mut Cursor<'_>,
) -> Result<Spelled<A>, LineFault>
    ensures reads { Reads result cursor.new.rest.now
        (read (called (delete Cause.Direct)) cursor.old.rest.now) }
{
    let op = delete(alloc, cursor, Cause::Direct)?;
    Ok(spelled_step(Step::Call(Asked::Op(op))))
}

// Reads an operation of the open transaction that is a change by a trigger or a foreign key action.
pub(crate) fn by_cascade<A: AllocHandle>(
    alloc: A,
    cursor: &mut Cursor<'_>,
) -> Result<Spelled<A>, LineFault>
    ensures reads { Reads result cursor.new.rest.now (read (called cascaded) cursor.old.rest.now) }
{
    let op = cascaded(alloc, cursor)?;
    Ok(spelled_step(Step::Call(Asked::Op(op))))
}

// Reads how far the open transaction goes back: `to N`, or nothing.
#[tactic(auto, unfolding(crate::specs::Language::rollback))]
pub(crate) fn rollback<A: AllocHandle>(cursor: &mut Cursor<'_>) -> Result<Spelled<A>, LineFault>
    ensures reads { Reads result cursor.new.rest.now (read rollback cursor.old.rest.now) }
{
    let taken = back(cursor)?;
    Ok(spelled_step(taken))
}

// Reads `to N`, the savepoint with this number, or nothing for all of the transaction.
#[tactic(auto, unfolding(crate::specs::Language::back))]
fn back<A: AllocHandle>(cursor: &mut Cursor<'_>) -> Result<Step<A>, LineFault>
    ensures reads { Reads result cursor.new.rest.now (read back cursor.old.rest.now) }
{
    cursor.skip_spaces();
    if cursor.rest.is_empty() {
        return Ok(Step::Rollback);
    }
    cursor.keyword("to")?;
    let number = cursor.natural()?;
    Ok(Step::Call(Asked::BackTo(Mark { number })))
}

// Reads a row that stands in place of a change: `(V,..)`.
#[tactic(auto, unfolding(crate::specs::Language::put))]
pub(crate) fn put<A: AllocHandle>(
    alloc: A,
    cursor: &mut Cursor<'_>,
) -> Result<Spelled<A>, LineFault>
    ensures reads { Reads result cursor.new.rest.now (read put cursor.old.rest.now) }
{
    let row = row(alloc, cursor)?;
    Ok(spelled_step(Step::Put(row)))
}
