//! Operations whose arguments are bytes.
ghost use Rattle.std.specs.Result.{result_err};
ghost use Rattle.cap_value.specs.Memory.{AnswersUnlessMemory, RefusesFirst};
ghost use Rattle.cap_records.specs.Ops.{delete_in, insert_in, update_in};

use crate::arguments::{row_argument, table_argument};
use crate::fault::RecordFault;
use crate::record::{assignments_of, row_of};
use cap_database::{Action, Cause, Op};
use cap_value::Fault;
use std::alloc::Global;

/// The operation that adds a row. A name that is none is misuse.
pub fn insert_op(
    alloc: Global,
    table: &[u8],
    row: &[u8],
    cause: Cause,
) -> Result<Op<Global>, Fault<RecordFault>>
    ensures op { AnswersUnlessMemory result (insert_in table.now row.now cause) }
    ensures first { RefusesFirst (result_err (insert_in table.now row.now cause)) result }
{
    match (table_argument(alloc, table), row_of(alloc, row)) {
        (Ok(table), Ok(row)) => Ok(Op {
            table,
            cause,
            action: Action::Insert(row),
        }),
        (Err(Fault::Refused(why)), _) => Err(Fault::Refused(why)),
        (_, Err(Fault::Refused(fault))) => Err(Fault::Refused(RecordFault::Malformed(fault))),
        _ => Err(Fault::OutOfMemory),
    }
}

/// The operation that sets columns of a row: of the one with this key, or where that is empty with this id.
/// A name that is none, a key beside an id other than 0, and an empty key beside 0 are misuse.
pub fn update_op(
    alloc: Global,
    table: &[u8],
    key: &[u8],
    id: u64,
    fields: &[u8],
    cause: Cause,
) -> Result<Op<Global>, Fault<RecordFault>>
    ensures op { AnswersUnlessMemory result (update_in table.now key.now id fields.now cause) }
    ensures first { RefusesFirst (result_err (update_in table.now key.now id fields.now cause)) result }
{
    match (
        row_argument(alloc, table, key, id),
        assignments_of(alloc, fields),
    ) {
        (Ok((table, row)), Ok(fields)) => Ok(Op {
            table,
            cause,
            action: Action::Update(row, fields),
        }),
        (Err(Fault::Refused(why)), _) => Err(Fault::Refused(why)),
        (_, Err(Fault::Refused(fault))) => Err(Fault::Refused(RecordFault::Malformed(fault))),
        _ => Err(Fault::OutOfMemory),
    }
}

/// The operation that removes a row, with the refusals of `update_op`.
pub fn delete_op(
    alloc: Global,
    table: &[u8],
    key: &[u8],
    id: u64,
    cause: Cause,
) -> Result<Op<Global>, Fault<RecordFault>>
    ensures op { AnswersUnlessMemory result (delete_in table.now key.now id cause) }
    ensures first { RefusesFirst (result_err (delete_in table.now key.now id cause)) result }
{
    let (table, row) = row_argument(alloc, table, key, id)?;
    Ok(Op {
        table,
        cause,
        action: Action::Delete(row),
    })
}
