//! The outputs of the calls on an application.
ghost use Rattle.std.specs.Prelude.{◌≡◌, None};
ghost use Rattle.cap_connection.specs.Application.{ApplicationState, new_record_of, old_record_of};
ghost use Rattle.cap_connection.specs.Application.{present_record_of, table_of};
ghost use Rattle.cap_c.specs.Applications.{OutputsBufferOf, TellsDone, TellsMade, application_output};
ghost use Rattle.cap_c.specs.Applications.{application_status, change_in, change_output, kind_number};
ghost use Rattle.cap_c.specs.Applications.{kind_output, report_in, report_output, stands_status};
ghost use Rattle.cap_c.specs.Outputs.{OutputsBytes, OutputsFound, OutputsMade};

use crate::application_handle::{self, ApplicationHandle};
use crate::apply_report::ApplyReport;
use crate::batch_handle::{self, BatchHandle};
use crate::change_info::ChangeInfo;
use crate::fault::PlacedFault;
use crate::held::HeldBatch;
use crate::iter_outputs::step_status;
use crate::output::write_bytes;
use crate::status::{FILTER, MALFORMED, MISUSE, NOMEM, OK, REFUSED};
use cap_apply::ConflictKind;
use cap_codec::KeyFlags;
use cap_connection::{Application, ApplicationFault, Applied};
use cap_txn::Batch;
use cap_value::{Fault, OutOfMemory, Refusal};
use std::alloc::Global;

fn application_status(why: Fault<ApplicationFault>) -> u32
    ensures { result ≡ application_status why }
{
    match why {
        Fault::OutOfMemory => NOMEM,
        Fault::Refused(ApplicationFault::Misuse) => MISUSE,
        Fault::Refused(ApplicationFault::Malformed(_)) => MALFORMED,
        Fault::Refused(ApplicationFault::NoFilter(_)) => FILTER,
        Fault::Refused(ApplicationFault::Refused(_)) => REFUSED,
    }
}

fn change_in(why: Refusal) -> Option<u64>
    ensures { result ≡ change_in why }
{
    match why {
        Refusal::Aborted { at } => Some(at),
        Refusal::Misuse { at } => Some(at),
        _ => None,
    }
}

fn application_output(why: Fault<ApplicationFault>, old: PlacedFault) -> PlacedFault
    ensures { result ≡ application_output why old }
{
    match why {
        Fault::Refused(ApplicationFault::Malformed(wrong)) => PlacedFault::of(wrong),
        Fault::Refused(ApplicationFault::NoFilter(why)) => PlacedFault::in_filter(why),
        Fault::Refused(ApplicationFault::Refused(why)) => PlacedFault::refused(change_in(why), why),
        _ => old,
    }
}

/// Sets the fault where there is one.
pub(crate) fn tell_done(answer: Result<(), Fault<ApplicationFault>>, fault: &mut PlacedFault) -> u32
    ensures { TellsDone result fault.old fault.new answer }
{
    match answer {
        Ok(()) => OK,
        Err(why) => {
            *fault = application_output(why, *fault);
            application_status(why)
        }
    }
}

/// Opens the application that was begun, or sets the fault.
pub(crate) fn tell_begun(
    alloc: Global,
    answer: Result<Application, Fault<ApplicationFault>>,
    handle: &mut ApplicationHandle,
    fault: &mut PlacedFault,
) -> u32
    requires closed { handle.old.value ≡ None }
    ensures { TellsMade result handle.new.value fault.old fault.new answer }
{
    match answer {
        Ok(application) => match Box::new(alloc, application) {
            Ok(application) => {
                application_handle::put(handle, application);
                OK
            }
            Err(_) => NOMEM,
        },
        Err(why) => {
            *fault = application_output(why, *fault);
            application_status(why)
        }
    }
}

/// Opens the batch that was made, or sets the fault.
pub(crate) fn tell_batch(
    alloc: Global,
    answer: Result<Batch<Global>, Fault<ApplicationFault>>,
    handle: &mut BatchHandle,
    fault: &mut PlacedFault,
) -> u32
    requires closed { handle.old.value ≡ None }
    ensures { TellsMade result handle.new.value fault.old fault.new answer }
{
    match answer {
        Ok(batch) => match Box::new(alloc, HeldBatch { batch }) {
            Ok(batch) => {
                batch_handle::put(handle, batch);
                OK
            }
            Err(_) => NOMEM,
        },
        Err(why) => {
            *fault = application_output(why, *fault);
            application_status(why)
        }
    }
}

/// Whether there is a conflict to be answered.
pub(crate) fn stands_status(stands: Option<bool>) -> u32
    ensures { result ≡ stands_status stands }
{
    match stands {
        Some(is_row) => step_status(is_row),
        None => MISUSE,
    }
}

fn kind_number(kind: ConflictKind) -> u32
    ensures { result ≡ kind_number kind }
{
    match kind {
        ConflictKind::Data => 1,
        ConflictKind::NotFound => 2,
        ConflictKind::Conflict => 3,
    }
}

/// The number of the conflict's kind.
pub(crate) fn kind_output(application: &Application) -> Option<u32>
    ensures { result ≡ kind_output application.now }
{
    match application.kind() {
        Some(kind) => Some(kind_number(kind)),
        None => None,
    }
}

/// What the change is.
pub(crate) fn change_output(application: &Application) -> Option<ChangeInfo>
    ensures { result ≡ change_output application.now }
{
    match application.head() {
        Some(head) => Some(ChangeInfo {
            op: u32::from(head.operation.byte()),
            indirect: u32::from(head.indirect),
            patchset: u32::from(application.is_of_patchset()),
            columns: application.columns(),
        }),
        None => None,
    }
}

fn report_in(made: Applied) -> ApplyReport
    ensures { result ≡ report_in made }
{
    ApplyReport {
        version: made.version,
        applied: made.applied,
        conflicts: made.conflicts,
        omitted: made.omitted,
        skipped: made.skipped,
    }
}

/// What became of the changes so far.
pub(crate) fn report_output(application: &Application) -> Option<ApplyReport>
    ensures { result ≡ report_output application.now }
{
    match application.report() {
        Some(made) => Some(report_in(made)),
        None => None,
    }
}

/// Writes the name of the change's table.
pub(crate) fn set_table(application: &Application, out: &mut [u8], len: &mut usize) -> u32
    ensures { OutputsBytes (table_of application.now) result out.old out.new len.old len.new }
{
    match application.table() {
        Some(name) => write_bytes(name.as_str().as_bytes(), out, len),
        None => MISUSE,
    }
}

/// Writes the record of the row before the change. Where there is none, that needs no memory.
pub(crate) fn set_old(
    alloc: Global,
    application: &Application,
    out: &mut [u8],
    len: &mut usize,
) -> u32
    ensures { OutputsMade (old_record_of application.now) result out.old out.new len.old len.new }
{
    if application.number().is_none() {
        return MISUSE;
    }
    match application.old_record(alloc) {
        Ok(Some(record)) => write_bytes(record.as_slice(), out, len),
        Ok(None) => MISUSE,
        Err(_) => NOMEM,
    }
}

/// Writes the record of the row after the change.
pub(crate) fn set_new(
    alloc: Global,
    application: &Application,
    out: &mut [u8],
    len: &mut usize,
) -> u32
    ensures { OutputsMade (new_record_of application.now) result out.old out.new len.old len.new }
{
    if application.number().is_none() {
        return MISUSE;
    }
    match application.new_record(alloc) {
        Ok(Some(record)) => write_bytes(record.as_slice(), out, len),
        Ok(None) => MISUSE,
        Err(_) => NOMEM,
    }
}

/// Writes the record of the row that is there.
pub(crate) fn set_present(
    alloc: Global,
    application: &Application,
    out: &mut [u8],
    len: &mut usize,
) -> u32
    ensures { OutputsMade (present_record_of application.now) result out.old out.new len.old len.new }
{
    if !application.has_present() {
        return MISUSE;
    }
    match application.present_record(alloc) {
        Ok(Some(record)) => write_bytes(record.as_slice(), out, len),
        Ok(None) => MISUSE,
        Err(_) => NOMEM,
    }
}

/// Writes the buffer of the conflicts so far.
pub(crate) fn set_buffer(
    alloc: Global,
    application: &Application,
    key_flags: Option<KeyFlags>,
    out: &mut [u8],
    len: &mut usize,
) -> u32
    ensures { OutputsBufferOf key_flags application.now result out.old out.new len.old len.new }
{
    let Some(key_flags) = key_flags else {
        return MISUSE;
    };
    if !application.has_buffer() {
        return MISUSE;
    }
    match application.buffer(alloc, key_flags) {
        Ok(Some(buffer)) => write_bytes(buffer.as_slice(), out, len),
        Ok(None) => MISUSE,
        Err(_) => NOMEM,
    }
}
