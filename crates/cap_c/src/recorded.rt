//! What a call whose arguments are records leaves with its caller.
ghost use Rattle.std.specs.Prelude.{◌≡◌, None};
ghost use Rattle.cap_c.specs.Recorded.{TellsMark, TellsRead, TellsRecord, record_output, record_status};

use crate::fault::PlacedFault;
use crate::rows_handle::{self, RowsHandle};
use crate::status::{MALFORMED, MISUSE, NOMEM, OK, REFUSED};
use cap_records::{RecordFault, RowCursor};
use cap_txn::Mark;
use cap_value::Fault;
use std::alloc::Global;

fn record_status(why: Fault<RecordFault>) -> u32
    ensures { result ≡ record_status why }
{
    match why {
        Fault::OutOfMemory => NOMEM,
        Fault::Refused(RecordFault::Misuse) => MISUSE,
        Fault::Refused(RecordFault::Malformed(_)) => MALFORMED,
        Fault::Refused(RecordFault::Refused(_)) => REFUSED,
    }
}

fn record_output(why: Fault<RecordFault>, old: PlacedFault) -> PlacedFault
    ensures { result ≡ record_output why old }
{
    match why {
        Fault::Refused(RecordFault::Malformed(wrong)) => PlacedFault::of(wrong),
        Fault::Refused(RecordFault::Refused(why)) => PlacedFault::refused(None, why),
        _ => old,
    }
}

/// Sets the fault where there is one.
pub(crate) fn tell_record(answer: Result<(), Fault<RecordFault>>, fault: &mut PlacedFault) -> u32
    ensures { TellsRecord result fault.old fault.new answer }
{
    match answer {
        Ok(()) => OK,
        Err(why) => {
            *fault = record_output(why, *fault);
            record_status(why)
        }
    }
}

/// Opens the rows that were read, or sets the fault.
pub(crate) fn tell_rows(
    alloc: Global,
    answer: Result<RowCursor, Fault<RecordFault>>,
    rows: &mut RowsHandle,
    fault: &mut PlacedFault,
) -> u32
    requires closed { rows.old.value ≡ None }
    ensures { TellsRead result rows.new.value fault.old fault.new answer }
{
    match answer {
        Ok(cursor) => rows_handle::open(alloc, rows, cursor),
        Err(why) => {
            *fault = record_output(why, *fault);
            record_status(why)
        }
    }
}

/// Sets the number of a mark, or the fault.
pub(crate) fn tell_mark(
    answer: Result<Mark, Fault<RecordFault>>,
    mark: &mut u64,
    fault: &mut PlacedFault,
) -> u32
    ensures { TellsMark result mark.old mark.new fault.old fault.new answer }
{
    match answer {
        Ok(made) => {
            *mark = made.number;
            OK
        }
        Err(why) => {
            *fault = record_output(why, *fault);
            record_status(why)
        }
    }
}
