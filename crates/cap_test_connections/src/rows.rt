//! Rows that are read of snapshots.
use crate::texts::opened;
use cap_codec::{BlobFault, FaultKind};
use cap_database::Snapshot;
use cap_field::ValueRef;
use cap_records::{RecordFault, RowCursor, get, scan, scan_from};
use cap_value::{Fault, Refusal};
use std::alloc::Global;

/// The record of the key (2).
pub(crate) const KEY: &[u8] = &[1, 0, 0, 0, 0, 0, 0, 0, 2];

// The record of the key (3).
const ABSENT: &[u8] = &[1, 0, 0, 0, 0, 0, 0, 0, 3];

const NO_TABLE: Fault<RecordFault> = Fault::Refused(RecordFault::Refused(Refusal::NoTable));

const MISUSE: Fault<RecordFault> = Fault::Refused(RecordFault::Misuse);

/// The tables that these commands leave.
pub(crate) fn tables(alloc: Global, texts: &[&str]) -> Option<Snapshot<Global>> {
    let mut connection = opened(alloc, texts)?;
    connection.read().ok()
}

// The integer in column 1 of the row at which the cursor stands.
fn integer(rows: &RowCursor) -> Option<i64> {
    match rows.value(1) {
        Some(ValueRef::Int(number)) => Some(number),
        _ => None,
    }
}

/// Goes to the next row: its id, and the integer in its column 1.
pub(crate) fn next(rows: &mut RowCursor) -> Option<(u64, i64)> {
    if !rows.step() {
        return None;
    }
    Some((rows.id()?, integer(rows)?))
}

/// Whether these are the rows that are read, by their ids and the integers in column 1.
pub(crate) fn are(read: Result<RowCursor, Fault<RecordFault>>, expected: &[(u64, i64)]) -> bool {
    let Ok(mut rows) = read else {
        return false;
    };
    for row in expected {
        if next(&mut rows) != Some(*row) {
            return false;
        }
    }
    !rows.step() && rows.id().is_none()
}

/// Why nothing is read.
pub(crate) fn fault_of(read: Result<RowCursor, Fault<RecordFault>>) -> Option<Fault<RecordFault>> {
    read.err()
}

// Whether the cursor goes over three rows, two by their keys and then one by its id.
fn are_in_order(mut rows: RowCursor) -> bool {
    let before = rows.columns().is_none() && next(&mut rows) == Some((0, 10));
    let at_the_first = rows.columns() == Some(2) && rows.value(2).is_none();
    let others = next(&mut rows) == Some((0, 20)) && next(&mut rows) == Some((1, 30));
    before && at_the_first && others && !rows.step()
}

fn reads_in_order(alloc: Global, snapshot: &Snapshot<Global>) -> bool {
    match scan(alloc, snapshot, b"t") {
        Ok(rows) => are_in_order(rows),
        Err(_) => false,
    }
}

fn reads_from_a_key(alloc: Global, snapshot: &Snapshot<Global>) -> bool {
    are(scan_from(alloc, snapshot, b"t", KEY, 5), &[(0, 20)])
        && are(scan_from(alloc, snapshot, b"t", KEY, 0), &[])
}

const THREE: &[&str] = &[
    "create t kv",
    "commit insert t (2,20) ; insert t (null,30) ; insert t (1,10)",
];

fn reads_three(alloc: Global) -> bool {
    match tables(alloc, THREE) {
        Some(snapshot) => reads_in_order(alloc, &snapshot) && reads_from_a_key(alloc, &snapshot),
        None => false,
    }
}

#[test]
fn rows_in_the_order_of_their_keys(rt: HostRuntime) {
    assert!(rt; reads_three(rt.alloc()));
}

fn reads_one_row(alloc: Global, snapshot: &Snapshot<Global>) -> bool {
    are(get(alloc, snapshot, b"t", KEY, 0), &[(0, 20)])
        && are(get(alloc, snapshot, b"t", b"", 1), &[(1, 30)])
        && are(get(alloc, snapshot, b"t", ABSENT, 0), &[])
}

fn refuses_other_names(alloc: Global, snapshot: &Snapshot<Global>) -> bool {
    let malformed = BlobFault {
        kind: FaultKind::BadField,
        at: 0,
    };
    let malformed = Fault::Refused(RecordFault::Malformed(malformed));
    fault_of(get(alloc, snapshot, b"t", b"", 0)) == Some(MISUSE)
        && fault_of(get(alloc, snapshot, b"t", KEY, 1)) == Some(MISUSE)
        && fault_of(scan(alloc, snapshot, b"u")) == Some(NO_TABLE)
        && fault_of(get(alloc, snapshot, b"t", b"\x09", 0)) == Some(malformed)
}

/// A table with the rows (2,20) and (null,30).
pub(crate) const TWO: &[&str] = &["create t kv", "commit insert t (2,20) ; insert t (null,30)"];

fn reads_one_of_two(alloc: Global) -> bool {
    match tables(alloc, TWO) {
        Some(snapshot) => reads_one_row(alloc, &snapshot) && refuses_other_names(alloc, &snapshot),
        None => false,
    }
}

#[test]
fn one_row_by_its_key_or_its_id(rt: HostRuntime) {
    assert!(rt; reads_one_of_two(rt.alloc()));
}
