//! The calls of a transaction whose arguments are bytes.
ghost use Rattle.std.specs.Prelude.{◌≡◌};
ghost use Rattle.std.specs.Result.{result_err};
ghost use Rattle.cap_value.specs.Memory.{AnswersUnlessMemory, RefusesFirst};
ghost use Rattle.cap_database.specs.Read.{read};
ghost use Rattle.cap_txn.specs.declared.answered_call.Asked.TheVariants as asked;
ghost use Rattle.cap_records.specs.Arguments.{row_argument, table_argument};
ghost use Rattle.cap_records.specs.Reads.{get_in, over, scan_in};
ghost use Rattle.cap_records.specs.Transactions.{LeavesAsked, LeavesScanned, MakesOp, get_asked, scan_asked};
ghost use Rattle.cap_records.specs.WithIds.{one_row};

use crate::arguments::{row_argument, table_argument};
use crate::fault::RecordFault;
use crate::rows::RowCursor;
use crate::with_ids::{id_of, id_rows};
use cap_database::Op;
use cap_table::RowRef;
use cap_txn::Txn;
use cap_value::{Fault, Name};
use std::alloc::Global;

/// Makes an operation on what stands.
pub fn txn_op(txn: &mut Txn<Global>, op: Op<Global>) -> Result<(), Fault<RecordFault>>
    ensures { MakesOp op txn.old txn.new result }
{
    match txn.op(op) {
        Ok(()) => Ok(()),
        Err(Fault::Refused(why)) => Err(Fault::Refused(RecordFault::Refused(why))),
        Err(Fault::OutOfMemory) => Err(Fault::OutOfMemory),
    }
}

/// The row with this key, or where that is empty with this id, as it stands, with the refusals of `get`. The
/// call is the last of the trace, also where the transaction refuses it.
pub fn txn_get(
    alloc: Global,
    txn: &mut Txn<Global>,
    table: &[u8],
    key: &[u8],
    id: u64,
) -> Result<RowCursor, Fault<RecordFault>>
    ensures rows { AnswersUnlessMemory result (get_in txn.old.workspace.database table.now key.now id) }
    ensures left { LeavesAsked txn.old txn.new (get_asked table.now key.now id) result }
    ensures first { RefusesFirst (result_err (row_argument table.now key.now id)) result }
{
    let (table, row) = row_argument(alloc, table, key, id)?;
    get_standing(alloc, txn, &table, &row)
}

fn get_standing(
    alloc: Global,
    txn: &mut Txn<Global>,
    table: &Name<Global>,
    row: &RowRef<Global>,
) -> Result<RowCursor, Fault<RecordFault>>
    ensures rows { AnswersUnlessMemory result
        (over (one_row row.now) (read txn.old.workspace.database table.now row.now)) }
    ensures left { LeavesAsked txn.old txn.new (Ok (asked.Get table.now row.now)) result }
{
    txn.sound_law();
    let mut rows = Vec::new(alloc);
    if rows.reserve(1).is_err() {
        return Err(Fault::OutOfMemory);
    }
    match txn.get(table, row) {
        Ok(Some(found)) => {
            rows.push_reserved((id_of(row), found));
            Ok(RowCursor::new(rows))
        }
        Ok(None) => Ok(RowCursor::new(rows)),
        Err(Fault::Refused(why)) => Err(Fault::Refused(RecordFault::Refused(why))),
        Err(Fault::OutOfMemory) => Err(Fault::OutOfMemory),
    }
}

/// All rows of a table as it stands, with the refusals of `scan`. The call is the last of the trace, also
/// where the transaction refuses it, and where the rows have no memory.
pub fn txn_scan(
    alloc: Global,
    txn: &mut Txn<Global>,
    table: &[u8],
) -> Result<RowCursor, Fault<RecordFault>>
    ensures rows { AnswersUnlessMemory result (scan_in txn.old.workspace.database table.now) }
    ensures left { LeavesScanned txn.old txn.new (scan_asked table.now) result }
    ensures first { RefusesFirst (result_err (table_argument table.now)) result }
{
    let table = table_argument(alloc, table)?;
    txn.sound_law();
    match txn.scan(&table) {
        Ok(rows) => Ok(RowCursor::new(id_rows(alloc, rows.scan())?)),
        Err(Fault::Refused(why)) => Err(Fault::Refused(RecordFault::Refused(why))),
        Err(Fault::OutOfMemory) => Err(Fault::OutOfMemory),
    }
}
