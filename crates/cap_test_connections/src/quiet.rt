//! Applications that leave sessions as they are, and to the tables that a filter accepts.
use crate::blobs::are_bytes;
use crate::captures::{CHANGESET, OMITS};
use crate::texts::{MISUSE, opened};
use cap_apply::{Answer, Policy};
use cap_codec::KeyFlags;
use cap_connection::{Applied, BlobIter, Connection, ConnectionFault, Passed};
use cap_value::{Fault, Refusal};
use std::alloc::Global;

const APPLIED: Applied = Applied {
    version: 2,
    applied: 1,
    conflicts: 0,
    omitted: 0,
    skipped: 0,
};

const NO_SESSION: Fault<ConnectionFault> = Fault::Refused(ConnectionFault::Refused {
    at: None,
    why: Refusal::NoSession,
});

// Whether the session is left as it is, and the other records what was applied.
fn leaves_one(alloc: Global, connection: &mut Connection, it: &mut BlobIter) -> bool {
    connection.apply_quiet(alloc, it, OMITS, &[1, 3]) == Err(NO_SESSION)
        && connection.apply_quiet(alloc, it, OMITS, &[1]) == Ok(APPLIED)
        && connection.is_empty(1) == Ok(true)
        && connection.is_empty(2) == Ok(false)
}

fn is_quiet(alloc: Global) -> bool {
    let sessions = &[
        "create t kv",
        "session",
        "session",
        "attachall 1",
        "attachall 2",
    ];
    let Some(mut connection) = opened(alloc, sessions) else {
        return false;
    };
    match BlobIter::open(alloc, CHANGESET) {
        Ok(mut it) => leaves_one(alloc, &mut connection, &mut it),
        Err(_) => false,
    }
}

#[test]
fn a_quiet_session_records_nothing_of_an_application(rt: HostRuntime) {
    assert!(rt; is_quiet(rt.alloc()));
}

// An INSERT of a table u, which is not there, and that of the table t.
const OF_TWO: &[u8] = &[
    0x54, 2, 1, 0, b'u', 0, 0x12, 0, 1, 0, 0, 0, 0, 0, 0, 0, 2, 5, 0x54, 2, 1, 0, b't', 0, 0x12, 0,
    1, 0, 0, 0, 0, 0, 0, 0, 1, 3, 1, b'x',
];

const ONE: Passed = Passed {
    groups: 1,
    changes: 1,
};

const ABORTED: Fault<ConnectionFault> = Fault::Refused(ConnectionFault::Refused {
    at: Some(1),
    why: Refusal::Aborted { at: 1 },
});

// Whether the refused change has its number in the blob, and the iterator is as it was.
fn is_refused_by_its_number(alloc: Global, connection: &mut Connection, it: &mut BlobIter) -> bool {
    let aborts = Policy::always(Answer::Abort);
    connection.apply_with(alloc, it, aborts, b"is t", &[1]) == Err(ABORTED)
        && connection.apply_with(alloc, it, aborts, b"\xff", &[]) == Err(MISUSE)
        && connection
            .apply_with(alloc, it, aborts, b"is", &[])
            .is_err()
        && it.step()
        && it.step()
        && !it.step()
}

// Whether the other table is passed over, and the iterator has the accepted group alone.
fn passes_over_one(alloc: Global, connection: &mut Connection, it: &mut BlobIter) -> bool {
    connection.apply_with(alloc, it, OMITS, b"is t", &[1]) == Ok((APPLIED, ONE))
        && it.step()
        && !it.step()
        && connection.is_empty(1) == Ok(true)
        && connection.apply_with(alloc, it, OMITS, b"", &[]).is_ok()
        && are_bytes(it.buffer(alloc, KeyFlags::Ones), CHANGESET)
}

fn passes_over(alloc: Global) -> bool {
    let sessions = &["create t kv", "session", "attachall 1"];
    let Some(mut connection) = opened(alloc, sessions) else {
        return false;
    };
    match (BlobIter::open(alloc, OF_TWO), BlobIter::open(alloc, OF_TWO)) {
        (Ok(mut it), Ok(mut again)) => {
            passes_over_one(alloc, &mut connection, &mut it)
                && is_refused_by_its_number(alloc, &mut connection, &mut again)
        }
        _ => false,
    }
}

#[test]
fn a_group_of_a_table_that_the_filter_does_not_accept(rt: HostRuntime) {
    assert!(rt; passes_over(rt.alloc()));
}
