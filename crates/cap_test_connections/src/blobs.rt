//! Iterators over blobs, and blobs in pieces.
use cap_apply::Answer;
use cap_codec::{BlobFault, FaultKind, KeyFlags, Operation};
use cap_connection::{BlobIter, PieceDecoder};
use cap_field::ValueRef;
use cap_value::{Fault, OutOfMemory};
use std::alloc::Global;

// An UPDATE of t: the key column is 1, the second column was 2 and is 3.
const UPDATE: &[u8] = &[
    0x54, 2, 1, 0, b't', 0, 0x17, 1, 1, 0, 0, 0, 0, 0, 0, 0, 1, 1, 0, 0, 0, 0, 0, 0, 0, 2, 0, 1, 0,
    0, 0, 0, 0, 0, 0, 3,
];

// The same UPDATE, direct.
const DIRECT: &[u8] = &[
    0x54, 2, 1, 0, b't', 0, 0x17, 0, 1, 0, 0, 0, 0, 0, 0, 0, 1, 1, 0, 0, 0, 0, 0, 0, 0, 2, 0, 1, 0,
    0, 0, 0, 0, 0, 0, 3,
];

fn is_integer(value: Option<ValueRef<'_>>, number: i64) -> bool {
    match value {
        Some(ValueRef::Int(found)) => found == number,
        _ => false,
    }
}

// Whether the change is the indirect UPDATE.
fn is_update(it: &BlobIter) -> bool {
    match it.head() {
        Some(head) => matches!(head.operation, Operation::Update) && head.indirect,
        None => false,
    }
}

fn is_of_t(it: &BlobIter) -> bool {
    match it.table() {
        Some(name) => name.as_str() == "t" && it.columns() == 2 && it.is_key(0) && !it.is_key(1),
        None => false,
    }
}

// Whether the iterator goes over that UPDATE alone.
fn goes_over_the_update(it: &mut BlobIter) -> bool {
    let before = it.head().is_none() && it.step();
    let change = is_update(it) && is_of_t(it) && !it.is_patchset();
    let key = is_integer(it.old(0), 1) && it.new_value(0).is_none();
    let value = is_integer(it.old(1), 2) && is_integer(it.new_value(1), 3);
    before && change && key && value && !it.step() && it.head().is_none()
}

fn opened(alloc: Global, blob: &[u8]) -> bool {
    match BlobIter::open(alloc, blob) {
        Ok(mut it) => goes_over_the_update(&mut it),
        Err(_) => false,
    }
}

fn finished(alloc: Global, decoder: PieceDecoder) -> bool {
    match decoder.finish(alloc) {
        Ok(mut it) => goes_over_the_update(&mut it),
        Err(_) => false,
    }
}

/// Whether there are these bytes.
pub(crate) fn are_bytes(found: Result<Option<Vec<u8, Global>>, OutOfMemory>, bytes: &[u8]) -> bool {
    match found {
        Ok(Some(found)) => found.as_slice() == bytes,
        _ => false,
    }
}

// Whether the iterator, at no change and then at the UPDATE, has its records.
fn has_records(alloc: Global, it: &mut BlobIter) -> bool {
    let none = matches!(it.old_record(alloc), Ok(None)) && matches!(it.new_record(alloc), Ok(None));
    let old = it.step() && are_bytes(it.old_record(alloc), &UPDATE[8..26]);
    none && old && are_bytes(it.new_record(alloc), &UPDATE[26..])
}

// Whether the buffer is empty before the conflict of the UPDATE is noted, and then the UPDATE with the answer.
fn has_a_buffer(alloc: Global, it: &mut BlobIter) -> bool {
    let empty = are_bytes(it.buffer(alloc, KeyFlags::Ones), b"");
    let noted = matches!(it.note(Answer::Omit), Ok(true));
    empty && noted && are_bytes(it.buffer(alloc, KeyFlags::Ones), DIRECT)
}

fn has_records_and_a_buffer(alloc: Global) -> bool {
    match BlobIter::open(alloc, UPDATE) {
        Ok(mut it) => {
            let none = matches!(it.note(Answer::Omit), Ok(false));
            none && has_records(alloc, &mut it) && has_a_buffer(alloc, &mut it)
        }
        Err(_) => false,
    }
}

#[test]
fn the_records_and_the_buffer_of_an_update(rt: HostRuntime) {
    assert!(rt; has_records_and_a_buffer(rt.alloc()));
}

#[test]
fn an_iterator_over_an_update(rt: HostRuntime) {
    assert!(rt; opened(rt.alloc(), UPDATE));
}

#[test]
fn an_update_in_two_pieces(rt: HostRuntime) {
    let mut decoder = PieceDecoder::new(rt.alloc());
    assert!(rt; decoder.feed(&UPDATE[..10]) == Ok(()));
    assert!(rt; decoder.feed(&UPDATE[10..]) == Ok(()));
    assert!(rt; finished(rt.alloc(), decoder));
}

#[test]
fn a_fault_that_no_further_bytes_can_mend(rt: HostRuntime) {
    let mut decoder = PieceDecoder::new(rt.alloc());
    let fault = Fault::Refused(BlobFault {
        at: 0,
        kind: FaultKind::BadHeader,
    });
    assert!(rt; decoder.feed(b"") == Ok(()));
    assert!(rt; decoder.feed(b"x") == Err(fault));
    assert!(rt; decoder.feed(UPDATE) == Err(fault));
}
