//! The calls on an application that stops at each conflict.
ghost use Rattle.std.specs.Prelude.{◌≡◌, IsSome, None};
ghost use Rattle.std.specs.Option.{option_map};
ghost use Rattle.cap_connection.specs.Application.{MergesRow, at_conflict_of, new_record_of, number_of};
ghost use Rattle.cap_connection.specs.Application.{old_record_of, present_record_of, table_of};
ghost use Rattle.cap_c.specs.Answered.{Answers};
ghost use Rattle.cap_c.specs.Applications.{AnswersBy, OpensApplication, OpensBatch, OutputsBufferOf};
ghost use Rattle.cap_c.specs.Applications.{TellsDone, change_output, kind_output, report_output};
ghost use Rattle.cap_c.specs.Applications.{stands_status};
ghost use Rattle.cap_c.specs.Handle.{Keeps};
ghost use Rattle.cap_c.specs.Numbers.{answer_of, key_flags_of};
ghost use Rattle.cap_c.specs.Outputs.{OutputsBytes, OutputsFound, OutputsMade};

use crate::answered::tell_found;
use crate::application_handle::{ApplicationHandle, put, take};
use crate::application_outputs::{
    change_output, kind_output, report_output, set_buffer, set_new, set_old, set_present,
    set_table, stands_status, tell_batch, tell_begun, tell_done,
};
use crate::apply_report::ApplyReport;
use crate::batch_handle::BatchHandle;
use crate::change_info::ChangeInfo;
use crate::fault::PlacedFault;
use crate::numbers::{answer_of, key_flags_of};
use crate::snapshot_handle::{self, SnapshotHandle};
use cap_apply::Answer;
use cap_connection::{Application, ApplicationFault};
use cap_value::Fault;
use std::alloc::Global;

/// Opens an application of a blob to the tables of a snapshot, at the first conflict or at the end. Only
/// tables that the filter of a text accepts are looked at, or with an empty text all.
#[unsafe(no_mangle)]
pub extern "C" fn changecap_apply_open(
    alloc: Global,
    snapshot: &mut SnapshotHandle,
    blob: &[u8],
    filter: &[u8],
    application: &mut ApplicationHandle,
    fault: &mut PlacedFault,
) -> u32
    requires opened { IsSome snapshot.old.value }
    requires closed { application.old.value ≡ None }
    ensures begun { Keeps snapshot.old.value snapshot.new.value (λ had. OpensApplication had blob.now
        filter.now result application.new.value fault.old fault.new) }
{
    let held = snapshot_handle::take(alloc, snapshot);
    let answer = Application::begin(alloc, &held.snapshot, blob, filter);
    snapshot_handle::put(snapshot, held);
    tell_begun(alloc, answer, application, fault)
}

/// Whether there is a conflict to be answered.
#[unsafe(no_mangle)]
pub extern "C" fn changecap_apply_step(alloc: Global, application: &mut ApplicationHandle) -> u32
    requires opened { IsSome application.old.value }
    ensures stepped { Keeps application.old.value application.new.value
        (λ app. result ≡ stands_status (at_conflict_of app)) }
{
    let held = take(alloc, application);
    let status = stands_status(held.is_at_conflict());
    put(application, held);
    status
}

/// Sets `kind` to that of the conflict.
#[unsafe(no_mangle)]
pub extern "C" fn changecap_apply_kind(
    alloc: Global,
    application: &mut ApplicationHandle,
    kind: &mut u32,
) -> u32
    requires opened { IsSome application.old.value }
    ensures outputs { Keeps application.old.value application.new.value
        (λ app. OutputsFound (kind_output app) result kind.old kind.new) }
{
    let held = take(alloc, application);
    let status = tell_found(kind_output(&held), kind);
    put(application, held);
    status
}

/// Sets `number` to that of the change, from 0.
#[unsafe(no_mangle)]
pub extern "C" fn changecap_apply_number(
    alloc: Global,
    application: &mut ApplicationHandle,
    number: &mut u64,
) -> u32
    requires opened { IsSome application.old.value }
    ensures outputs { Keeps application.old.value application.new.value
        (λ app. OutputsFound (number_of app) result number.old number.new) }
{
    let held = take(alloc, application);
    let status = tell_found(held.number(), number);
    put(application, held);
    status
}

/// Sets `info` to what the change is.
#[unsafe(no_mangle)]
pub extern "C" fn changecap_apply_op(
    alloc: Global,
    application: &mut ApplicationHandle,
    info: &mut ChangeInfo,
) -> u32
    requires opened { IsSome application.old.value }
    ensures outputs { Keeps application.old.value application.new.value
        (λ app. OutputsFound (change_output app) result info.old info.new) }
{
    let held = take(alloc, application);
    let status = tell_found(change_output(&held), info);
    put(application, held);
    status
}

/// Writes the name of the change's table.
#[unsafe(no_mangle)]
pub extern "C" fn changecap_apply_table(
    alloc: Global,
    application: &mut ApplicationHandle,
    out: &mut [u8],
    len: &mut usize,
) -> u32
    requires opened { IsSome application.old.value }
    ensures outputs { Keeps application.old.value application.new.value
        (λ app. OutputsBytes (table_of app) result out.old out.new len.old len.new) }
{
    let held = take(alloc, application);
    let status = set_table(&held, out, len);
    put(application, held);
    status
}

/// Writes the record of the row before the change: a field for each column, undefined where it has no value.
#[unsafe(no_mangle)]
pub extern "C" fn changecap_apply_old(
    alloc: Global,
    application: &mut ApplicationHandle,
    out: &mut [u8],
    len: &mut usize,
) -> u32
    requires opened { IsSome application.old.value }
    ensures outputs { Keeps application.old.value application.new.value
        (λ app. OutputsMade (old_record_of app) result out.old out.new len.old len.new) }
{
    let held = take(alloc, application);
    let status = set_old(alloc, &held, out, len);
    put(application, held);
    status
}

/// Writes the record of the row after the change.
#[unsafe(no_mangle)]
pub extern "C" fn changecap_apply_new(
    alloc: Global,
    application: &mut ApplicationHandle,
    out: &mut [u8],
    len: &mut usize,
) -> u32
    requires opened { IsSome application.old.value }
    ensures outputs { Keeps application.old.value application.new.value
        (λ app. OutputsMade (new_record_of app) result out.old out.new len.old len.new) }
{
    let held = take(alloc, application);
    let status = set_new(alloc, &held, out, len);
    put(application, held);
    status
}

/// Writes the record of the row that is there, after the changes of the blob before this one.
#[unsafe(no_mangle)]
pub extern "C" fn changecap_apply_present(
    alloc: Global,
    application: &mut ApplicationHandle,
    out: &mut [u8],
    len: &mut usize,
) -> u32
    requires opened { IsSome application.old.value }
    ensures outputs { Keeps application.old.value application.new.value
        (λ app. OutputsMade (present_record_of app) result out.old out.new len.old len.new) }
{
    let held = take(alloc, application);
    let status = set_present(alloc, &held, out, len);
    put(application, held);
    status
}

/// Answers the conflict, and goes on to the next one or to the end.
#[unsafe(no_mangle)]
pub extern "C" fn changecap_apply_answer(
    alloc: Global,
    application: &mut ApplicationHandle,
    answer: u32,
    fault: &mut PlacedFault,
) -> u32
    requires opened { IsSome application.old.value }
    ensures answered { Answers application.old.value application.new.value (AnswersBy (answer_of answer))
        (TellsDone result fault.old fault.new) }
{
    let mut held = take(alloc, application);
    let done = answer_by(&mut held, answer_of(answer));
    put(application, held);
    tell_done(done, fault)
}

fn answer_by(
    application: &mut Application,
    answer: Option<Answer>,
) -> Result<(), Fault<ApplicationFault>>
    ensures { AnswersBy answer application.old application.new result }
{
    match answer {
        Some(answer) => application.answer(answer),
        None => Err(Fault::Refused(ApplicationFault::Misuse)),
    }
}

/// Answers the conflict by a row, which stands there in place of the change.
#[unsafe(no_mangle)]
pub extern "C" fn changecap_apply_answer_row(
    alloc: Global,
    application: &mut ApplicationHandle,
    row: &[u8],
    fault: &mut PlacedFault,
) -> u32
    requires opened { IsSome application.old.value }
    ensures answered { Answers application.old.value application.new.value (MergesRow row.now)
        (TellsDone result fault.old fault.new) }
{
    let mut held = take(alloc, application);
    let done = held.answer_row(alloc, row);
    put(application, held);
    tell_done(done, fault)
}

/// Opens a batch that makes what the application left.
#[unsafe(no_mangle)]
pub extern "C" fn changecap_apply_end(
    alloc: Global,
    application: &mut ApplicationHandle,
    batch: &mut BatchHandle,
    fault: &mut PlacedFault,
) -> u32
    requires opened { IsSome application.old.value }
    requires closed { batch.old.value ≡ None }
    ensures ended { Keeps application.old.value application.new.value
        (λ app. OpensBatch app result batch.new.value fault.old fault.new) }
{
    let held = take(alloc, application);
    let answer = held.batch();
    put(application, held);
    tell_batch(alloc, answer, batch, fault)
}

/// Sets `report` to what became of the changes so far, with the version of the snapshot.
#[unsafe(no_mangle)]
pub extern "C" fn changecap_apply_report(
    alloc: Global,
    application: &mut ApplicationHandle,
    report: &mut ApplyReport,
) -> u32
    requires opened { IsSome application.old.value }
    ensures outputs { Keeps application.old.value application.new.value
        (λ app. OutputsFound (report_output app) result report.old report.new) }
{
    let held = take(alloc, application);
    let status = tell_found(report_output(&held), report);
    put(application, held);
    status
}

/// Writes the buffer of the conflicts so far.
#[unsafe(no_mangle)]
pub extern "C" fn changecap_apply_buffer(
    alloc: Global,
    application: &mut ApplicationHandle,
    key_flags: u32,
    out: &mut [u8],
    len: &mut usize,
) -> u32
    requires opened { IsSome application.old.value }
    ensures outputs { Keeps application.old.value application.new.value
        (λ app. OutputsBufferOf (key_flags_of key_flags) app result out.old out.new len.old len.new) }
{
    let held = take(alloc, application);
    let status = set_buffer(alloc, &held, key_flags_of(key_flags), out, len);
    put(application, held);
    status
}

/// Closes the application, of which nothing is left.
#[unsafe(no_mangle)]
pub extern "C" fn changecap_apply_close(alloc: Global, application: &mut ApplicationHandle)
    requires opened { IsSome application.old.value }
    ensures closed { application.new.value ≡ None }
{
    drop(take(alloc, application));
}
