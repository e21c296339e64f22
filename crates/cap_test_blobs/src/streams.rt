//! Tests of blobs read from readers and written to writers, some of which fail.
ghost use Rattle.std.specs.Prelude.{◌≤◌};

use crate::known::{CHANGES, INSERT, PATCHES, UPDATE_PATCH, is_written, read_slowly};
use crate::refused::{Call, requests_refused};
use cap_codec::{
    BlobFault, Contents, Decoder, FaultKind, ReadFault, WriteFault, read_blob, read_from,
    write_changes_to, write_patches_to,
};
use cap_test_support::{Failure, Sink, Source};
use cap_value::{AllocHandle, Fault, OutOfMemory};
use std::alloc::Global;
use std::io::Read;
use std::test::*;

// Whether what the decoder was fed is written as these bytes.
fn finishes_as(
    alloc: Global,
    decoder: Decoder<Global>,
    bytes: &[u8],
) -> Result<bool, Fault<BlobFault>> {
    let blob = decoder.finish()?;
    Ok(is_written(alloc, &blob, bytes)?)
}

// Whether INSERT is read in these two pieces.
fn is_insert(alloc: Global, front: &[u8], rest: &[u8]) -> Result<bool, Fault<BlobFault>> {
    let mut decoder = Decoder::new(alloc);
    decoder.feed(front)?;
    decoder.feed(rest)?;
    finishes_as(alloc, decoder, &INSERT)
}

#[test]
fn every_cutting_into_two_pieces(rt: HostRuntime) {
    for len in 0..=INSERT.len() {
        let (front, rest) = INSERT.split_at(len);
        assert!(rt; is_insert(rt.alloc(), front, rest) == Ok(true), "{len}");
    }
}

// Whether these bytes, read byte by byte, are written again.
fn reads_slowly(alloc: Global, bytes: &[u8]) -> Result<bool, Fault<BlobFault>> {
    let blob = read_slowly(alloc, bytes)?;
    Ok(is_written(alloc, &blob, bytes)?)
}

#[test]
fn byte_by_byte(rt: HostRuntime) {
    assert!(rt; reads_slowly(rt.alloc(), &INSERT) == Ok(true));
}

// Whether these bytes, in pieces of this length, are read as what is written as the same bytes.
fn reads_in_pieces(alloc: Global, bytes: &[u8], len: usize) -> Result<bool, Fault<BlobFault>>
    requires { 1 ≤ len }
{
    let mut decoder = Decoder::new(alloc);
    for piece in bytes.chunks(len) {
        decoder.feed(piece)?;
    }
    finishes_as(alloc, decoder, bytes)
}

#[test]
fn pieces_of_every_length(rt: HostRuntime) {
    for len in 1..=CHANGES.len() {
        assert!(rt; reads_in_pieces(rt.alloc(), &CHANGES, len) == Ok(true));
        assert!(rt; reads_in_pieces(rt.alloc(), &PATCHES, len) == Ok(true));
    }
}

// 2,000 blobs of 1,000 bytes in one change.
fn long_change(alloc: Global) -> Result<Vec<u8>, OutOfMemory> {
    let mut bytes = Vec::new(alloc);
    bytes.extend_from_slice(&[0x54, 0x8f, 0x50, 1])?;
    bytes.extend_from_slice(&[0; 1999])?;
    bytes.extend_from_slice(&[0x74, 0, 0x12, 0])?;
    for _column in 0..2000_usize {
        bytes.extend_from_slice(&[4, 0x87, 0x68])?;
        bytes.extend_from_slice(&[7; 1000])?;
    }
    Ok(bytes)
}

// It would not end in time if the change were looked at with each piece.
#[test]
fn a_long_change_in_short_pieces(rt: HostRuntime) -> Result<(), Fail> {
    let bytes = long_change(rt.alloc())?;
    assert!(rt; reads_in_pieces(rt.alloc(), &bytes, 7) == Ok(true));
    Ok(())
}

#[test]
fn a_fault_inside_a_change(rt: HostRuntime) {
    let mut decoder = Decoder::new(rt.alloc());
    for byte in &CHANGES[..35] {
        assert!(rt; decoder.feed(&[*byte]) == Ok(()));
    }
    // The old record of the UPDATE has that field, and its new record does not.
    let fault = Err(Fault::Refused(BlobFault {
        at: 35,
        kind: FaultKind::BadRecord,
    }));
    assert!(rt; decoder.feed(&[0]) == fault);
    assert!(rt; decoder.feed(&[3]) == fault);
}

// What is answered for the end of what the decoder was fed.
fn end_fault(decoder: Decoder<Global>) -> Option<Fault<BlobFault>> {
    match decoder.finish() {
        Err(fault) => Some(fault),
        Ok(_blob) => None,
    }
}

#[test]
fn a_fault_is_answered_from_then_on(rt: HostRuntime) {
    let fault = Fault::Refused(BlobFault {
        at: 6,
        kind: FaultKind::BadOp,
    });
    let mut decoder = Decoder::new(rt.alloc());
    assert!(rt; decoder.feed(&[0x54, 2, 1, 0, 0x74, 0]) == Ok(()));
    assert!(rt; decoder.feed(&[0x80]) == Err(fault));
    assert!(rt; decoder.feed(&[]) == Err(fault));
    assert!(rt; decoder.feed(&INSERT) == Err(fault));
    assert!(rt; end_fault(decoder) == Some(fault));
}

// A reader of the bytes, at most three a read.
fn source(bytes: &[u8], failure: Failure) -> Source<'_> {
    Source {
        bytes,
        most: 3,
        failure,
    }
}

// Whether INSERT is read.
fn reads_insert(alloc: Global, reader: &mut Source<'_>) -> Result<bool, ReadFault> {
    let blob = read_from(alloc, reader)?;
    Ok(is_written(alloc, &blob, &INSERT) == Ok(true))
}

// The reads after it would succeed.
#[test]
fn a_read_that_fails(rt: HostRuntime) {
    // Seven reads of three bytes, and one that gives nothing.
    for call in 1..=8u64 {
        let mut reader = source(&INSERT, Failure::at(call));
        assert!(rt;
            reads_insert(rt.alloc(), &mut reader) == Err(ReadFault::Read),
            "{call}"
        );
    }
    let mut reader = source(&INSERT, Failure::at(9));
    assert!(rt; reads_insert(rt.alloc(), &mut reader) == Ok(true));
}

// An interrupted read is tried again.
#[test]
fn a_read_that_is_interrupted(rt: HostRuntime) {
    for call in 1..=8u64 {
        let mut reader = source(&INSERT, Failure::interrupted(call));
        assert!(rt; reads_insert(rt.alloc(), &mut reader) == Ok(true), "{call}");
        assert!(rt; reader.failure.call == 0, "{call}");
    }
}

// Whether INSERT is read from one reader and then from another.
fn reads_chained(alloc: Global, front: &[u8], rest: &[u8]) -> Result<bool, ReadFault> {
    let blob = read_from(alloc, &mut front.chain(rest))?;
    Ok(is_written(alloc, &blob, &INSERT) == Ok(true))
}

#[test]
fn every_cutting_of_a_reader(rt: HostRuntime) {
    for len in 0..=INSERT.len() {
        let (front, rest) = INSERT.split_at(len);
        assert!(rt; reads_chained(rt.alloc(), front, rest) == Ok(true), "{len}");
    }
}

#[test]
fn a_reader_of_bad_bytes(rt: HostRuntime) {
    let mut source = Source {
        bytes: &[0x54, 2, 1, 0, 0x74, 0, 0x80, 1, 2, 3],
        most: 7,
        failure: Failure::at(2),
    };
    let fault = ReadFault::Blob(BlobFault {
        at: 6,
        kind: FaultKind::BadOp,
    });
    assert!(rt; reads_insert(rt.alloc(), &mut source) == Err(fault));
    assert!(rt; source.bytes.len() == 3);
}

// A writer of at most so many bytes a write.
fn sink(alloc: Global, most: usize, failure: Failure) -> Sink<Global> {
    Sink {
        taken: Vec::new(alloc),
        most,
        failure,
        flush_fails: false,
    }
}

// Writes what reads as these bytes.
fn write_to(alloc: Global, writer: &mut Sink<Global>, bytes: &[u8]) -> Result<(), WriteFault> {
    match read_blob(alloc, bytes) {
        Ok(Contents::Changes(list)) => write_changes_to(alloc, writer, &list),
        Ok(Contents::Patches(list)) => write_patches_to(alloc, writer, &list),
        Err(_fault) => Err(WriteFault::Memory),
    }
}

// The writes after it would succeed.
#[test]
fn a_write_that_fails(rt: HostRuntime) {
    // Two writes of seven bytes and one of six.
    for writes in 0..=3usize {
        let mut writer = sink(rt.alloc(), 7, Failure::at(writes as u64 + 1));
        let expected = if writes < 3 {
            Err(WriteFault::Write)
        } else {
            Ok(())
        };
        assert!(rt; write_to(rt.alloc(), &mut writer, &INSERT) == expected);
        assert!(rt; writer.taken.as_slice() == &INSERT[..(writes * 7).min(20)]);
    }
}

// An interrupted write is made again.
#[test]
fn a_write_that_is_interrupted(rt: HostRuntime) {
    for call in 1..=3u64 {
        let mut writer = sink(rt.alloc(), 7, Failure::interrupted(call));
        assert!(rt;
            write_to(rt.alloc(), &mut writer, &INSERT) == Ok(()),
            "{call}"
        );
        assert!(rt; writer.taken.as_slice() == INSERT.as_slice(), "{call}");
    }
}

#[test]
fn a_patchset_is_written_whole(rt: HostRuntime) {
    let mut writer = sink(rt.alloc(), 1, Failure::at(21));
    assert!(rt; write_to(rt.alloc(), &mut writer, &UPDATE_PATCH) == Ok(()));
    assert!(rt; writer.taken.as_slice() == UPDATE_PATCH.as_slice());
    let mut stuck = sink(rt.alloc(), 0, Failure::none());
    assert!(rt; write_to(rt.alloc(), &mut stuck, &UPDATE_PATCH) == Err(WriteFault::Write));
    assert!(rt; stuck.taken.is_empty());
}

// Feeds a piece: whether it is taken at once, or else when it is fed again, since there was no memory.
fn feed_or_feed_again<A: AllocHandle>(
    decoder: &mut Decoder<A>,
    piece: &[u8],
) -> Result<bool, Fault<BlobFault>> {
    match decoder.feed(piece) {
        Ok(()) => Ok(true),
        Err(Fault::OutOfMemory) => {
            decoder.feed(piece)?;
            Ok(false)
        }
        Err(fault) => Err(fault),
    }
}

/// Decodes the bytes in two pieces: whether they are written as the same bytes. Where a piece is out of
/// memory and fed again, so is the whole, once it is found to be written so.
pub(crate) fn decode<A: AllocHandle>(alloc: A, bytes: &[u8]) -> Result<bool, Fault<BlobFault>> {
    let (front, rest) = bytes.split_at(bytes.len() / 2);
    let mut decoder = Decoder::new(alloc);
    let is_front_taken = feed_or_feed_again(&mut decoder, front)?;
    let is_rest_taken = feed_or_feed_again(&mut decoder, rest)?;
    let blob = decoder.finish()?;
    let is_so = is_written(alloc, &blob, bytes)?;
    if is_so && !(is_front_taken && is_rest_taken) {
        return Err(Fault::OutOfMemory);
    }
    Ok(is_so)
}

/// Reads the bytes: whether they are written as the same bytes.
pub(crate) fn read_and_write<A: AllocHandle>(
    alloc: A,
    bytes: &[u8],
) -> Result<bool, Fault<BlobFault>> {
    let blob = read_blob(alloc, bytes)?;
    Ok(is_written(alloc, &blob, bytes)?)
}

// Each request for memory of a decoder is refused in turn. A piece that is refused is fed again. Where
// `feed` or `finish` is refused room for all flags of the header at once, it takes room as it goes. What is
// decoded is written too.
#[test]
fn out_of_memory(rt: HostRuntime) {
    let (read, _) = requests_refused(rt.alloc(), Call::Read(&INSERT));
    let (written, _) = requests_refused(rt.alloc(), Call::ReadAndWrite(&INSERT));
    let (decoded, spared) = requests_refused(rt.alloc(), Call::Decode(&INSERT));
    assert!(rt; written >= 2 && spared <= 2);
    assert!(rt; decoded.saturating_add(read) >= written.saturating_add(3));
}

// The same for a patchset that is read and written. Only a reading is spared a request.
#[test]
fn out_of_memory_for_a_patchset(rt: HostRuntime) {
    let (read, spared) = requests_refused(rt.alloc(), Call::Read(&UPDATE_PATCH));
    assert!(rt; read >= 2 && spared <= 1);
    let (written, spared_then) = requests_refused(rt.alloc(), Call::ReadAndWrite(&UPDATE_PATCH));
    assert!(rt; written > read && spared_then == spared);
}
