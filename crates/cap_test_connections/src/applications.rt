//! Applications that stop at each conflict, and are committed as what they looked at.
use crate::blobs::are_bytes;
use crate::captures::CHANGESET;
use crate::rows::tables;
use crate::texts::{accepts, opened};
use cap_apply::{Answer, ConflictKind};
use cap_codec::KeyFlags;
use cap_connection::{Application, ApplicationFault, Connection, ConnectionFault};
use cap_database::Snapshot;
use cap_txn::Batch;
use cap_value::{Fault, OutOfMemory, Refusal};
use std::alloc::Global;

// The records of the rows (1,'x'), (1,'y'), (1,'z') and (2,'z').
const NEW: &[u8] = &[1, 0, 0, 0, 0, 0, 0, 0, 1, 3, 1, b'x'];

const PRESENT: &[u8] = &[1, 0, 0, 0, 0, 0, 0, 0, 1, 3, 1, b'y'];

const MERGED: &[u8] = &[1, 0, 0, 0, 0, 0, 0, 0, 1, 3, 1, b'z'];

const OTHER: &[u8] = &[1, 0, 0, 0, 0, 0, 0, 0, 2, 3, 1, b'z'];

// What makes the row (1,'y') in the table t.
const ROW: &[&str] = &["create t kv", "commit insert t (1,'y')"];

// An application that inserts (1,'x').
fn begun(alloc: Global, snapshot: &Snapshot<Global>, filter: &[u8]) -> Option<Application> {
    Application::begin(alloc, snapshot, CHANGESET, filter).ok()
}

fn is_record(found: Result<Option<Vec<u8, Global>>, OutOfMemory>, expected: &[u8]) -> bool {
    match found {
        Ok(Some(record)) => record.as_slice() == expected,
        _ => false,
    }
}

// Whether it stands at the conflict of the insert, with both rows.
fn shows(alloc: Global, application: &Application) -> bool {
    application.is_at_conflict() == Some(true)
        && application.kind() == Some(ConflictKind::Conflict)
        && application.number() == Some(0)
        && application.head().is_some()
        && application.columns() == 2
        && application.table().is_some()
        && !application.is_of_patchset()
        && application.has_present()
        && is_record(application.old_record(alloc), b"\0\0")
        && is_record(application.new_record(alloc), NEW)
        && is_record(application.present_record(alloc), PRESENT)
}

fn refused(why: Refusal) -> Result<(), Fault<ApplicationFault>> {
    Err(Fault::Refused(ApplicationFault::Refused(why)))
}

const MISUSE: Result<(), Fault<ApplicationFault>> = Err(Fault::Refused(ApplicationFault::Misuse));

// Whether a row with another key, and one that is too short, change nothing.
fn keeps_standing(alloc: Global, application: &mut Application) -> bool {
    application.answer_row(alloc, OTHER) == MISUSE
        && application.answer_row(alloc, &NEW[..9]) == refused(Refusal::WrongWidth)
        && shows(alloc, application)
}

// How many changes were applied and omitted.
fn counts(application: &Application) -> Option<(u64, u64)> {
    let report = application.report()?;
    Some((report.applied, report.omitted))
}

// The batch of what it left, once a row stands in place of the change.
fn merged(alloc: Global, snapshot: &Snapshot<Global>) -> Option<Batch<Global>> {
    let mut application = begun(alloc, snapshot, b"")?;
    if !shows(alloc, &application) || !keeps_standing(alloc, &mut application) {
        return None;
    }
    if application.batch().is_ok() || application.answer_row(alloc, MERGED) != Ok(()) {
        return None;
    }
    let is_right = application.is_at_conflict() == Some(false)
        && counts(&application) == Some((0, 1))
        && application.has_buffer()
        && are_bytes(application.buffer(alloc, KeyFlags::Ones), CHANGESET)
        && application.answer(Answer::Omit) == MISUSE;
    if is_right {
        application.batch().ok()
    } else {
        None
    }
}

// Whether the commit of what was merged has this answer behind another commit.
fn is_answered_behind(
    alloc: Global,
    connection: &mut Connection,
    snapshot: &Snapshot<Global>,
    text: &str,
    answer: Result<u64, Fault<ConnectionFault>>,
) -> bool {
    match merged(alloc, snapshot) {
        Some(mut batch) => {
            accepts(connection, alloc, &[text]) && connection.commit(alloc, &mut batch) == answer
        }
        None => false,
    }
}

const STALE: Refusal = Refusal::Stale {
    base: 2,
    now: 5,
    item: Some(1),
};

const IS_STALE: Result<u64, Fault<ConnectionFault>> = Err(Fault::Refused(
    ConnectionFault::Refused {
        at: None,
        why: STALE,
    },
));

// Whether it is committed behind a commit of another row, and not behind one of its own.
fn is_judged(alloc: Global) -> bool {
    let Some(mut connection) = opened(alloc, ROW) else {
        return false;
    };
    let Ok(snapshot) = connection.read() else {
        return false;
    };
    let (other, own) = (
        "commit insert t (2,'b')",
        "commit update t key(1) set 1 = 'z'",
    );
    is_answered_behind(alloc, &mut connection, &snapshot, other, Ok(4))
        && is_answered_behind(alloc, &mut connection, &snapshot, own, IS_STALE)
}

#[test]
fn an_application_is_committed_as_what_it_looked_at(rt: HostRuntime) {
    assert!(rt; is_judged(rt.alloc()));
}

// Whether an answer that ends it leaves nothing of it.
fn ends(alloc: Global, snapshot: &Snapshot<Global>) -> Option<bool> {
    let mut application = begun(alloc, snapshot, b"is t")?;
    let is_refused = application.answer(Answer::Abort) == refused(Refusal::Aborted { at: 0 });
    Some(
        is_refused
            && application.is_at_conflict().is_none()
            && application.report().is_none()
            && application.batch().is_err(),
    )
}

// What becomes of bytes that are no blob, and of texts that are no filter.
fn wrong(
    alloc: Global,
    snapshot: &Snapshot<Global>,
    blob: &[u8],
    filter: &[u8],
) -> Option<ApplicationFault> {
    match Application::begin(alloc, snapshot, blob, filter) {
        Err(Fault::Refused(why)) => Some(why),
        _ => None,
    }
}

// Whether an application whose filter passes over the table makes nothing.
fn passes_over(alloc: Global, snapshot: &Snapshot<Global>) -> bool {
    match begun(alloc, snapshot, b"not is t") {
        Some(passed) => passed.is_at_conflict() == Some(false) && counts(&passed) == Some((0, 0)),
        None => false,
    }
}

const NO_FILTER: ApplicationFault = ApplicationFault::NoFilter(Refusal::BadFilter { at: 2 });

fn refuses_the_wrong(alloc: Global, snapshot: &Snapshot<Global>) -> bool {
    wrong(alloc, snapshot, CHANGESET, b"is") == Some(NO_FILTER)
        && wrong(alloc, snapshot, CHANGESET, b"\xff") == Some(ApplicationFault::Misuse)
        && wrong(alloc, snapshot, &CHANGESET[..19], b"").is_some()
}

fn is_over_or_none(alloc: Global) -> bool {
    match tables(alloc, ROW) {
        Some(snapshot) => {
            ends(alloc, &snapshot) == Some(true)
                && passes_over(alloc, &snapshot)
                && refuses_the_wrong(alloc, &snapshot)
        }
        None => false,
    }
}

#[test]
fn an_application_that_is_over_and_one_that_is_none(rt: HostRuntime) {
    assert!(rt; is_over_or_none(rt.alloc()));
}
