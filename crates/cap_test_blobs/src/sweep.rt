//! Every blob that is one byte off a known one, and every front of five others, whole and byte by byte.
//! Whatever reads is written, read and written again, and the bytes have to stay the same. The counts were
//! made by a reader written apart from this one.
use crate::known::{
    DIFFERENCE, INSERT, OTHER_KEY, TWO_TABLES, UPDATE, UPDATE_PATCH, is_written, read_slowly,
    reads_as, write,
};
use cap_codec::{BlobFault, Contents, FaultKind, read_blob};
use cap_value::Fault;
use std::alloc::Global;

// How many blobs were refused, by the fault's number less 1; how many read; and how many did anything else.
type Tally = [u64; 12];

const READ: usize = 10;

const OTHERWISE: usize = 11;

fn fault_number(fault: Fault<BlobFault>) -> usize {
    let Fault::Refused(fault) = fault else {
        return OTHERWISE;
    };
    match fault.kind {
        FaultKind::Truncated => 0,
        FaultKind::BadHeader => 1,
        FaultKind::BadVarint => 2,
        FaultKind::BadName => 3,
        FaultKind::BadOp => 4,
        FaultKind::BadField => 5,
        FaultKind::Real => 6,
        FaultKind::BadText => 7,
        FaultKind::BadRecord => 8,
        FaultKind::Mixed => 9,
    }
}

// Whether both are written as the same bytes, which read as the same again.
fn are_alike(
    alloc: Global,
    blob: &Contents<Global>,
    slowly: &Contents<Global>,
) -> Result<bool, Fault<BlobFault>> {
    let written = write(alloc, blob)?;
    Ok(is_written(alloc, slowly, &written)? && reads_as(alloc, &written, &written)?)
}

// What comes of two blobs of the same bytes.
fn read_outcome(alloc: Global, blob: &Contents<Global>, slowly: &Contents<Global>) -> usize {
    match are_alike(alloc, blob, slowly) {
        Ok(true) => READ,
        _ => OTHERWISE,
    }
}

// What comes of a blob that is read whole and byte by byte.
fn outcome(alloc: Global, bytes: &[u8]) -> usize {
    let slowly = read_slowly(alloc, bytes);
    match read_blob(alloc, bytes) {
        Ok(blob) => match slowly {
            Ok(slowly) => read_outcome(alloc, &blob, &slowly),
            Err(_fault) => OTHERWISE,
        },
        Err(fault) => match slowly {
            Ok(_blob) => OTHERWISE,
            Err(slowly) => same_fault(fault, slowly),
        },
    }
}

fn same_fault(fault: Fault<BlobFault>, slowly: Fault<BlobFault>) -> usize {
    if fault == slowly {
        fault_number(fault)
    } else {
        OTHERWISE
    }
}

fn count(alloc: Global, bytes: &[u8], tally: &mut Tally) {
    if let Some(count) = tally.get_mut(outcome(alloc, bytes)) {
        *count = count.saturating_add(1);
    }
}

// Each byte changed to each other value.
#[test]
fn every_blob_one_byte_off(rt: HostRuntime) {
    let mut tally = [0; 12];
    for place in 0..INSERT.len() {
        for byte in 0..=255 {
            if byte != INSERT[place] {
                let mut bytes = INSERT;
                bytes[place] = byte;
                count(rt.alloc(), &bytes, &mut tally);
            }
        }
    }
    assert!(rt; tally == [384, 369, 2, 267, 382, 500, 2, 128, 5, 1, 3060, 0]);
}

fn count_fronts(alloc: Global, blob: &[u8], tally: &mut Tally) {
    for len in 0..=blob.len() {
        count(alloc, &blob[..len], tally);
    }
}

#[test]
fn every_front_of_five_blobs(rt: HostRuntime) {
    let mut tally = [0; 12];
    count_fronts(rt.alloc(), &UPDATE, &mut tally);
    count_fronts(rt.alloc(), &UPDATE_PATCH, &mut tally);
    count_fronts(rt.alloc(), &OTHER_KEY, &mut tally);
    count_fronts(rt.alloc(), &TWO_TABLES, &mut tally);
    count_fronts(rt.alloc(), &DIFFERENCE, &mut tally);
    assert!(rt; tally == [181, 0, 0, 0, 0, 0, 0, 0, 0, 0, 22, 0]);
}
