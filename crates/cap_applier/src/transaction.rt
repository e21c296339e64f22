//! The transaction that makes what an application left.
ghost use Rattle.std.specs.Prelude.{◌≡◌, IfOk, OnOk};
ghost use Rattle.std.specs.List.{enumerate_from};
ghost use Rattle.std.specs.Option.{option_copied};
ghost use Rattle.cap_value.specs.Memory.{AnswersUnlessMemory, LeavesUnlessMemory};
ghost use Rattle.cap_table.specs.declared.row_ref.RowRef.TheVariants as named;
ghost use Rattle.cap_database.specs.Read.{row_at};
ghost use Rattle.cap_txn.specs.Transaction.{begin_traced, traced};
ghost use Rattle.cap_txn.specs.declared.answered_call.Asked.TheVariants as asked;
ghost use Rattle.cap_applier.specs.Transaction.{leading, made_in, row_led, rows_led};

use crate::looked::RowOf;
use crate::progress::row_under;
use cap_database::{Action, Assignments, Cause, Database, Op, Snapshot};
use cap_row::{Key, Row};
use cap_table::RowRef;
use cap_txn::Txn;
use cap_value::{AllocHandle, Fault, Name, OutOfMemory, Refusal};

// A transaction on the snapshot that looks at each of the rows, and makes it the one that was left.
pub(crate) fn leading_to<A: AllocHandle>(
    alloc: A,
    snapshot: &Snapshot<A>,
    left: &Database<A>,
    rows: &[RowOf<A>],
) -> Result<Txn<A>, Fault<Refusal>>
    ensures { AnswersUnlessMemory result (rows_led left.now rows.now (begin_traced snapshot.now)) }
{
    let mut txn = Txn::begin(alloc, snapshot)?;
    for row in rows {
        lead(alloc, &mut txn, left, row)?;
    }
    Ok(txn)
}

// Looks at a row, and makes it the one that was left.
fn lead<A: AllocHandle>(
    alloc: A,
    txn: &mut Txn<A>,
    left: &Database<A>,
    row: &RowOf<A>,
) -> Result<(), Fault<Refusal>>
    ensures { LeavesUnlessMemory result (row_led left.now row.now.0 row.now.1 txn.old) txn.new }
{
    let (table, key) = row;
    let found = look_at(txn, table, key)?;
    let action = leading_action(alloc, key, found.as_ref(), row_under(left, table, key))?;
    make_action(txn, table, action)
}

// Looks at a row.
fn look_at<A: AllocHandle>(
    txn: &mut Txn<A>,
    table: &Name<A>,
    key: &Key<A>,
) -> Result<Option<Row<A>>, OutOfMemory>
    ensures looked { OnOk result (txn.new ≡ traced txn.old (asked.Get table.now (named.Key key.now))) }
    ensures row { IfOk result (λ row. row ≡ row_at txn.old.workspace.database table.now key.now) }
{
    let row = RowRef::Key(key.copy()?);
    match txn.get(table, &row) {
        Ok(found) => Ok(found),
        Err(Fault::Refused(_)) => Ok(None),
        Err(Fault::OutOfMemory) => Err(OutOfMemory),
    }
}

// Makes an operation, if there is one to make.
fn make_action<A: AllocHandle>(
    txn: &mut Txn<A>,
    table: &Name<A>,
    action: Option<Action<A>>,
) -> Result<(), Fault<Refusal>>
    ensures { LeavesUnlessMemory result (made_in table.now action txn.old) txn.new }
{
    match action {
        Some(action) => {
            let op = Op {
                table: table.copy()?,
                cause: Cause::Direct,
                action,
            };
            txn.op_without_limit(op)
        }
        None => Ok(()),
    }
}

// What makes of the row under a key the other one.
fn leading_action<A: AllocHandle>(
    alloc: A,
    key: &Key<A>,
    before: Option<&Row<A>>,
    after: Option<&Row<A>>,
) -> Result<Option<Action<A>>, OutOfMemory>
    ensures { IfOk result (λ action. action
        ≡ leading key.now (option_copied before.entry) (option_copied after.entry)) }
{
    match (before, after) {
        (None, None) => Ok(None),
        (None, Some(row)) => Ok(Some(Action::Insert(row.copy()?))),
        (Some(_), None) => Ok(Some(Action::Delete(RowRef::Key(key.copy()?)))),
        (Some(before), Some(row)) => {
            if before == row {
                return Ok(None);
            }
            let columns = every_column(alloc, row)?;
            Ok(Some(Action::Update(RowRef::Key(key.copy()?), columns)))
        }
    }
}

// Each column, with its value in the row.
fn every_column<A: AllocHandle>(alloc: A, row: &Row<A>) -> Result<Assignments<A>, OutOfMemory>
    ensures { IfOk result (λ columns. columns ≡ enumerate_from 0 row.now) }
{
    let width = row.width();
    let mut columns = Vec::with_capacity(alloc, width)?;
    let mut rest = row.fields();
    for column in 0..width {
        let Some(value) = rest.next_value() else {
            return Ok(Assignments::new(columns));
        };
        columns.push((column, value.own(alloc)?))?;
    }
    Ok(Assignments::new(columns))
}
