//! Captures, their bytes, and blobs that are applied.
use crate::blobs::are_bytes;
use crate::texts::opened;
use cap_apply::{Answer, Policy};
use cap_codec::KeyFlags;
use cap_connection::{BlobIter, CaptureKind, Captured, Connection, ConnectionFault};
use cap_core::QuietSessions;
use cap_value::Fault;
use std::alloc::Global;

// SQLite's changeset of one inserted row, (1,'x') of the table t, whose first column is its key.
pub(crate) const CHANGESET: &[u8] = &[
    0x54, 2, 1, 0, b't', 0, 0x12, 0, 1, 0, 0, 0, 0, 0, 0, 0, 1, 3, 1, b'x',
];

// Its patchset of the same row.
const PATCHSET: &[u8] = &[
    0x50, 2, 1, 0, b't', 0, 0x12, 0, 1, 0, 0, 0, 0, 0, 0, 0, 1, 3, 1, b'x',
];

/// Each change that meets a conflict is omitted.
pub(crate) const OMITS: Policy = Policy {
    on_data: Answer::Omit,
    on_notfound: Answer::Omit,
    on_conflict: Answer::Omit,
};

fn has_bytes(alloc: Global, captured: &Captured, kind: CaptureKind, expected: &[u8]) -> bool {
    match captured.bytes(alloc, kind, KeyFlags::Places) {
        Ok(bytes) => bytes.as_slice() == expected,
        Err(_) => false,
    }
}

/// Whether there is a capture, with this changeset as often as it is asked for.
pub(crate) fn has_changeset(
    alloc: Global,
    captured: &Result<Captured, Fault<ConnectionFault>>,
    expected: &[u8],
) -> bool {
    match captured {
        Ok(captured) => {
            has_bytes(alloc, captured, CaptureKind::Changeset, expected)
                && has_bytes(alloc, captured, CaptureKind::Changeset, expected)
        }
        Err(_) => false,
    }
}

/// The version of a capture, where there is one.
pub(crate) fn version_of(captured: &Result<Captured, Fault<ConnectionFault>>) -> Option<u64> {
    match captured {
        Ok(captured) => Some(captured.version()),
        Err(_) => None,
    }
}

// Whether there is a capture with this patchset.
fn has_patchset(
    alloc: Global,
    captured: &Result<Captured, Fault<ConnectionFault>>,
    expected: &[u8],
) -> bool {
    match captured {
        Ok(captured) => has_bytes(alloc, captured, CaptureKind::Patchset, expected),
        Err(_) => false,
    }
}

// The version, how many changes were applied, and how many were omitted.
fn applied(
    connection: &mut Connection,
    alloc: Global,
    it: &mut BlobIter,
) -> Option<(u64, u64, u64)> {
    match connection.apply(alloc, it, OMITS, QuietSessions::none(alloc)) {
        Ok(made) => Some((made.version, made.applied, made.omitted)),
        Err(_) => None,
    }
}

const WATCHED: &[&str] = &[
    "create t kv",
    "session",
    "attach 1 t",
    "commit insert t (1,'x')",
];

// Whether a capture leaves the session as it was.
fn keeps_the_session(alloc: Global, connection: &mut Connection) -> bool {
    let captured = connection.capture(1);
    connection.is_empty(1) == Ok(false) && has_changeset(alloc, &captured, CHANGESET)
}

// Whether a restart captures the session, and empties it.
fn empties_the_session(alloc: Global, connection: &mut Connection) -> bool {
    let captured = connection.restart(1);
    connection.is_empty(1) == Ok(true)
        && has_changeset(alloc, &captured, CHANGESET)
        && has_patchset(alloc, &captured, PATCHSET)
}

fn captures_again(alloc: Global) -> bool {
    let Some(mut connection) = opened(alloc, WATCHED) else {
        return false;
    };
    if !keeps_the_session(alloc, &mut connection) || !empties_the_session(alloc, &mut connection) {
        return false;
    }
    let empty = connection.capture(1);
    has_changeset(alloc, &empty, b"")
}

#[test]
fn a_capture_is_written_as_often_as_it_is_asked_for(rt: HostRuntime) {
    assert!(rt; captures_again(rt.alloc()));
}

// Whether the INSERT is applied, and then met by a conflict, which the iterator notes.
fn applies_twice(alloc: Global, connection: &mut Connection, it: &mut BlobIter) -> bool {
    it.step()
        && applied(connection, alloc, it) == Some((2, 1, 0))
        && it.head().is_some()
        && are_bytes(it.buffer(alloc, KeyFlags::Ones), b"")
        && applied(connection, alloc, it) == Some((3, 0, 1))
        && are_bytes(it.buffer(alloc, KeyFlags::Ones), CHANGESET)
        && !it.step()
}

fn applies_an_iterator(alloc: Global) -> bool {
    let Some(mut connection) = opened(alloc, &["create t kv"]) else {
        return false;
    };
    match BlobIter::open(alloc, CHANGESET) {
        Ok(mut it) => applies_twice(alloc, &mut connection, &mut it),
        Err(_) => false,
    }
}

#[test]
fn an_iterator_goes_on_after_it_was_applied(rt: HostRuntime) {
    assert!(rt; applies_an_iterator(rt.alloc()));
}
