//! Tests of whole blobs, read and written.
use crate::known::{DELETE, INSERT, UPDATE, UPDATE_PATCH, reads_as};
use crate::made::{Fields, field, group, is_list, wide_insert};
use cap_changes::{ChangeList, ChangeRef};
use cap_codec::{BlobFault, Contents, FaultKind, read_blob, write_changes};
use cap_value::{Fault, Value};
use std::alloc::Global;
use std::test::*;

// The row (1, 'x'), and what an update to (1, 'y') keeps of it.
const ROW: Option<Fields> = Some((Some(1), Some("x")));

const NEW: Option<Fields> = Some((None, Some("y")));

#[test]
fn an_insert(rt: HostRuntime) {
    let patchset = [
        0x50, 2, 1, 0, 0x74, 0, 0x12, 0, 1, 0, 0, 0, 0, 0, 0, 0, 1, 3, 1, 0x78,
    ];
    assert!(rt; is_list(rt.alloc(), (None, ROW), &INSERT, &patchset) == Ok(true));
}

#[test]
fn an_update(rt: HostRuntime) {
    assert!(rt; is_list(rt.alloc(), (ROW, NEW), &UPDATE, &UPDATE_PATCH) == Ok(true));
}

#[test]
fn a_delete(rt: HostRuntime) {
    let patchset = [0x50, 2, 1, 0, 0x74, 0, 0x09, 0, 1, 0, 0, 0, 0, 0, 0, 0, 1];
    assert!(rt; is_list(rt.alloc(), (ROW, None), &DELETE, &patchset) == Ok(true));
}

// A value as plain data: a number, so many letters, no bytes, or NULL.
#[derive(Clone, Copy, Drop)]
enum Plain {
    Int(i64),
    Letters(usize),
    NoBytes,
    Null,
}

// Values, how many bytes each has as a field, and the first of them.
const FIELDS: &[(Plain, usize, &[u8])] = &[
    (
        Plain::Int(-1),
        9,
        &[1, 255, 255, 255, 255, 255, 255, 255, 255],
    ),
    (Plain::Int(i64::MIN), 9, &[1, 0x80, 0, 0, 0, 0, 0, 0, 0]),
    (Plain::Letters(127), 129, &[3, 0x7f, b'a']),
    (Plain::Letters(128), 131, &[3, 0x81, 0]),
    (Plain::Letters(300), 303, &[3, 0x82, 0x2c]),
    (Plain::NoBytes, 2, &[4, 0]),
    (Plain::Null, 1, &[5]),
];

fn letters(alloc: Global, count: usize) -> Option<Value<Global>> {
    let mut text = String::new(alloc);
    for _ in 0..count {
        text.push('a').ok()?;
    }
    Value::text(alloc, text.as_str()).ok()
}

fn value(alloc: Global, plain: Plain) -> Option<Value<Global>> {
    match plain {
        Plain::Int(number) => Some(Value::Int(number)),
        Plain::Letters(count) => letters(alloc, count),
        Plain::NoBytes => Value::blob(alloc, &[]).ok(),
        Plain::Null => Some(Value::Null),
    }
}

// Whether the value has so many bytes as a field, and begins with these.
fn is_field(alloc: Global, plain: Plain, len: usize, front: &[u8]) -> Option<bool> {
    let bytes = field(alloc, value(alloc, plain)?)?;
    Some(bytes.len() == len && bytes.starts_with(front))
}

#[test]
fn fields(rt: HostRuntime) {
    for (plain, len, front) in FIELDS {
        assert!(rt; is_field(rt.alloc(), *plain, *len, front) == Some(true));
    }
}

// Whether a changeset of a group of one column without changes, and a group of 2,000 columns, begins with
// these bytes.
fn widest_begins_with(alloc: Global, front: &[u8]) -> Option<bool> {
    let mut list = ChangeList::new(alloc);
    list.push(group(alloc, "without changes", &[true]).ok()?)
        .ok()?;
    list.push(wide_insert(alloc).ok()?).ok()?;
    Some(write_changes(alloc, &list).ok()?.starts_with(front))
}

#[test]
fn as_many_columns_as_there_may_be(rt: HostRuntime) {
    assert!(rt; widest_begins_with(rt.alloc(), &[0x54, 0x8f, 0x50, 1]) == Some(true));
}

// How many groups there are in a changeset, and how many changes of the first.
fn counted(alloc: Global, bytes: &[u8]) -> Result<(usize, usize), Fault<BlobFault>> {
    let Contents::Changes(list) = read_blob(alloc, bytes)? else {
        return Err(Fault::OutOfMemory);
    };
    match list.groups().first() {
        None => Ok((0, 0)),
        Some(group) => Ok((list.groups().len(), group.changes().len())),
    }
}

fn refused(at: usize, kind: FaultKind) -> Fault<BlobFault> {
    Fault::Refused(BlobFault { at, kind })
}

#[test]
fn every_front_of_a_blob(rt: HostRuntime) {
    for len in 0..20 {
        let expected = match len {
            0 => Ok((0, 0)),
            6 => Ok((1, 0)),
            _ => Err(refused(len, FaultKind::Truncated)),
        };
        assert!(rt; counted(rt.alloc(), &INSERT[..len]) == expected, "{len}");
    }
    assert!(rt; reads_as(rt.alloc(), &INSERT, &INSERT) == Ok(true));
}

// INSERT with another flag for a key column.
const OTHER_FLAG: &[u8] = &[
    0x54, 2, 2, 0, 0x74, 0, 0x12, 0, 1, 0, 0, 0, 0, 0, 0, 0, 1, 3, 1, 0x78,
];

// Blobs that are refused, where, and why.
const REFUSED: &[(&[u8], usize, FaultKind)] = &[
    (
        &[
            0x54, 2, 1, 0, 0x74, 0, 0x12, 0, 1, 0, 0, 0, 0, 0, 0, 0, 1, 2, 1, 0x78,
        ],
        17,
        FaultKind::Real,
    ),
    (
        &[
            0x54, 2, 1, 0, 0x74, 0, 0x12, 0, 1, 0, 0, 0, 0, 0, 0, 0, 1, 3, 0x80, 0x80, 0x80, 0x80,
            1, 0x78,
        ],
        18,
        FaultKind::BadVarint,
    ),
    (
        &[
            0x54, 2, 1, 0, 0x74, 0, 0x12, 0, 1, 0, 0, 0, 0, 0, 0, 0, 1, 3, 1, 0x78, 0x50, 2, 1, 0,
            0x74, 0,
        ],
        20,
        FaultKind::Mixed,
    ),
    (
        &[0x54, 2, 1, 0, 0x74, 0, 0x12, 0, 5, 3, 1, 0x6e],
        8,
        FaultKind::BadRecord,
    ),
    (
        &[
            0x54, 2, 1, 0, 0x74, 0, 0x17, 0, 1, 0, 0, 0, 0, 0, 0, 0, 1, 3, 1, 0x78, 0, 0,
        ],
        21,
        FaultKind::BadRecord,
    ),
    (&[0x54, 2, 1, 0, 0x74, 0, 0x80], 6, FaultKind::BadOp),
    (&[0x54, 0x8f, 0x51], 1, FaultKind::BadHeader),
];

#[test]
fn blobs_that_are_refused(rt: HostRuntime) {
    assert!(rt; reads_as(rt.alloc(), OTHER_FLAG, &INSERT) == Ok(true));
    for (bytes, at, kind) in REFUSED {
        assert!(rt;
            reads_as(rt.alloc(), bytes, bytes) == Err(refused(*at, *kind)),
            "{at}"
        );
    }
}

#[test]
fn a_patchset_reads_again(rt: HostRuntime) {
    let delete = [0x50, 2, 1, 0, 0x74, 0, 0x09, 0, 1, 0, 0, 0, 0, 0, 0, 0, 1];
    assert!(rt; reads_as(rt.alloc(), &delete, &delete) == Ok(true));
}

fn is_printed(alloc: Global, fault: BlobFault, text: &str) -> bool {
    match format!(in alloc; "{fault}") {
        Ok(printed) => printed.as_str() == text,
        Err(_) => false,
    }
}

#[test]
fn the_text_of_a_fault(rt: HostRuntime) {
    let fault = BlobFault {
        at: 20,
        kind: FaultKind::Truncated,
    };
    assert!(rt; is_printed(rt.alloc(), fault, "D1 Truncated at 20"));
}

// How many rows a changeset inserts. It stands in docs/manual/rattle.md too.
fn inserted_rows(alloc: Global, bytes: &[u8]) -> Result<usize, Fault<BlobFault>> {
    let Contents::Changes(list) = read_blob(alloc, bytes)? else {
        return Ok(0);
    };
    let mut inserted = 0usize;
    for group in list.groups() {
        for change in group.changes() {
            if let ChangeRef::Insert { .. } = change.read() {
                inserted = inserted.saturating_add(1);
            }
        }
    }
    Ok(inserted)
}

#[test]
fn a_changeset_of_one_insert(rt: HostRuntime) {
    assert!(rt; inserted_rows(rt.alloc(), &INSERT) == Ok(1));
    assert!(rt; inserted_rows(rt.alloc(), &INSERT[..8]) != Ok(0));
}
