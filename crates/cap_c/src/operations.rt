//! Operations of which the number of the cause is an argument.
ghost use Rattle.std.specs.Result.{result_err};
ghost use Rattle.cap_value.specs.Memory.{AnswersUnlessMemory, RefusesFirst};
ghost use Rattle.cap_records.specs.Ops.{delete_in, insert_in, update_in};
ghost use Rattle.cap_c.specs.Recorded.{caused};

use cap_database::{Cause, Op};
use cap_records::{RecordFault, delete_op, insert_op, update_op};
use cap_value::Fault;
use std::alloc::Global;

/// An INSERT of a row.
pub(crate) fn insert_caused(
    alloc: Global,
    table: &[u8],
    row: &[u8],
    cause: Option<Cause>,
) -> Result<Op<Global>, Fault<RecordFault>>
    ensures op { AnswersUnlessMemory result (caused cause (insert_in table.now row.now)) }
    ensures first { RefusesFirst (result_err (caused cause (insert_in table.now row.now))) result }
{
    match cause {
        Some(cause) => insert_op(alloc, table, row, cause),
        None => Err(Fault::Refused(RecordFault::Misuse)),
    }
}

/// An UPDATE of the row with a key, or with an id.
pub(crate) fn update_caused(
    alloc: Global,
    table: &[u8],
    key: &[u8],
    id: u64,
    fields: &[u8],
    cause: Option<Cause>,
) -> Result<Op<Global>, Fault<RecordFault>>
    ensures op { AnswersUnlessMemory result (caused cause (update_in table.now key.now id fields.now)) }
    ensures first { RefusesFirst (result_err (caused cause (update_in table.now key.now id fields.now)))
        result }
{
    match cause {
        Some(cause) => update_op(alloc, table, key, id, fields, cause),
        None => Err(Fault::Refused(RecordFault::Misuse)),
    }
}

/// A DELETE of the row with a key, or with an id.
pub(crate) fn delete_caused(
    alloc: Global,
    table: &[u8],
    key: &[u8],
    id: u64,
    cause: Option<Cause>,
) -> Result<Op<Global>, Fault<RecordFault>>
    ensures op { AnswersUnlessMemory result (caused cause (delete_in table.now key.now id)) }
    ensures first { RefusesFirst (result_err (caused cause (delete_in table.now key.now id))) result }
{
    match cause {
        Some(cause) => delete_op(alloc, table, key, id, cause),
        None => Err(Fault::Refused(RecordFault::Misuse)),
    }
}
