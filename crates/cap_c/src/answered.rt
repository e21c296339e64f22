//! What a call leaves with its caller, by the answer of the library's call.
ghost use Rattle.std.specs.Prelude.{◌≡◌};
ghost use Rattle.cap_c.specs.Client.{join_status};
ghost use Rattle.cap_c.specs.Outputs.{OutputsFound};
ghost use Rattle.cap_c.specs.Answered.{Tells, TellsFlag, TellsNumber, TellsPassed, TellsPiece, TellsReport};
ghost use Rattle.cap_c.specs.Answered.{TellsText};
ghost use Rattle.cap_c.specs.Answered.{fault_output, fault_status};

use crate::apply_report::{ApplyReport, PassedOver};
use crate::fault::PlacedFault;
use crate::status::{
    BUSY, CLIENTS, COMMAND, FILTER, FULL, MALFORMED, MISUSE, NOMEM, OK, OVERTAKEN, REFUSED,
};
use cap_codec::BlobFault;
use cap_connection::{Applied, ConnectionFault, Passed};
use cap_hub::JoinFault;
use cap_value::Fault;

/// The status of a call on a client that has no answer.
pub(crate) fn fault_status(why: Fault<ConnectionFault>) -> u32
    ensures { result ≡ fault_status why }
{
    match why {
        Fault::OutOfMemory => NOMEM,
        Fault::Refused(ConnectionFault::Misuse) => MISUSE,
        Fault::Refused(ConnectionFault::Busy) => BUSY,
        Fault::Refused(ConnectionFault::Overtaken { .. }) => OVERTAKEN,
        Fault::Refused(ConnectionFault::Full) => FULL,
        Fault::Refused(ConnectionFault::Refused { .. }) => REFUSED,
        Fault::Refused(ConnectionFault::NoFilter(_)) => FILTER,
        Fault::Refused(ConnectionFault::NoCommand(_)) => COMMAND,
    }
}

/// The fault that is set then, or what was there before.
pub(crate) fn fault_output(why: Fault<ConnectionFault>, old: PlacedFault) -> PlacedFault
    ensures { result ≡ fault_output why old }
{
    match why {
        Fault::Refused(ConnectionFault::Refused { at, why }) => PlacedFault::refused(at, why),
        Fault::Refused(ConnectionFault::Overtaken { front }) => PlacedFault::overtaken(front),
        Fault::Refused(ConnectionFault::NoFilter(why)) => PlacedFault::in_filter(why),
        Fault::Refused(ConnectionFault::NoCommand(why)) => PlacedFault::in_text(why),
        _ => old,
    }
}

/// The status of a client that does not join.
pub(crate) fn join_status(why: JoinFault) -> u32
    ensures { result ≡ join_status why }
{
    match why {
        JoinFault::Busy => BUSY,
        JoinFault::TooMany => CLIENTS,
        JoinFault::OutOfMemory => NOMEM,
    }
}

/// Sets the fault where there is one.
pub(crate) fn tell(answer: Result<(), Fault<ConnectionFault>>, fault: &mut PlacedFault) -> u32
    ensures { Tells result fault.old fault.new answer }
{
    match answer {
        Ok(()) => OK,
        Err(why) => {
            *fault = fault_output(why, *fault);
            fault_status(why)
        }
    }
}

/// Sets a number, or the fault.
pub(crate) fn tell_number(
    answer: Result<u64, Fault<ConnectionFault>>,
    number: &mut u64,
    fault: &mut PlacedFault,
) -> u32
    ensures { TellsNumber result number.old number.new fault.old fault.new answer }
{
    match answer {
        Ok(found) => {
            *number = found;
            OK
        }
        Err(why) => {
            *fault = fault_output(why, *fault);
            fault_status(why)
        }
    }
}

/// Sets a flag, or the fault.
pub(crate) fn tell_flag(
    answer: Result<bool, Fault<ConnectionFault>>,
    flag: &mut u32,
    fault: &mut PlacedFault,
) -> u32
    ensures { TellsFlag result flag.old flag.new fault.old fault.new answer }
{
    match answer {
        Ok(found) => {
            *flag = u32::from(found);
            OK
        }
        Err(why) => {
            *fault = fault_output(why, *fault);
            fault_status(why)
        }
    }
}

/// Sets the report of a blob that was applied, or the fault.
pub(crate) fn tell_report(
    answer: Result<Applied, Fault<ConnectionFault>>,
    report: &mut ApplyReport,
    fault: &mut PlacedFault,
) -> u32
    ensures { TellsReport result report.old report.new fault.old fault.new answer }
{
    match answer {
        Ok(made) => {
            *report = ApplyReport {
                version: made.version,
                applied: made.applied,
                conflicts: made.conflicts,
                omitted: made.omitted,
                skipped: made.skipped,
            };
            OK
        }
        Err(why) => {
            *fault = fault_output(why, *fault);
            fault_status(why)
        }
    }
}

/// The same of one with a filter, and sets what was passed over.
pub(crate) fn tell_passed(
    answer: Result<(Applied, Passed), Fault<ConnectionFault>>,
    report: &mut ApplyReport,
    passed: &mut PassedOver,
    fault: &mut PlacedFault,
) -> u32
    ensures { TellsPassed result report.old report.new passed.old passed.new fault.old fault.new answer }
{
    match answer {
        Ok((made, over)) => {
            *passed = PassedOver {
                groups: over.groups,
                changes: over.changes,
            };
            tell_report(Ok(made), report, fault)
        }
        Err(why) => tell_report(Err(why), report, fault),
    }
}

/// Whether a command by text is accepted, or the fault of the text.
pub(crate) fn tell_text(
    answer: Result<bool, Fault<ConnectionFault>>,
    fault: &mut PlacedFault,
) -> u32
    ensures { TellsText result fault.old fault.new answer }
{
    match answer {
        Ok(true) => OK,
        Ok(false) => REFUSED,
        Err(why) => {
            *fault = fault_output(why, *fault);
            fault_status(why)
        }
    }
}

/// Sets the fault of a piece of a blob, where it has one.
pub(crate) fn tell_piece(answer: Result<(), Fault<BlobFault>>, fault: &mut PlacedFault) -> u32
    ensures { TellsPiece answer result fault.old fault.new }
{
    match answer {
        Ok(()) => OK,
        Err(Fault::Refused(wrong)) => {
            *fault = PlacedFault::of(wrong);
            MALFORMED
        }
        Err(Fault::OutOfMemory) => NOMEM,
    }
}

/// Sets what was asked for, where there is any.
pub(crate) fn tell_found<T: Copy + Drop>(found: Option<T>, out: &mut T) -> u32
    ensures { OutputsFound found result out.old out.new }
{
    match found {
        Some(value) => {
            *out = value;
            OK
        }
        None => MISUSE,
    }
}
