//! Each request for memory refused in turn, where a blob is shown or converted, or blobs are concatenated or
//! rebased.
use crate::rows::{
    CHANGESET, INVERSE, JOINED, OVER_BUFFERS, PATCHSET, REBASED, SHOWN, TO_INVERSE, TO_JOIN,
    TO_PATCHSET, TO_REBASE, TOGETHER,
};
use cap_run::{Encoding, Form, RunFault, combine_blobs, convert_blob, show_blob};
use cap_test_support::{Failure, Memory, Source};
use std::alloc::Global;

// More requests than any of these makes.
const REQUESTS_MAX: u64 = 100_000;

// The most requests that are refused without a fault: each reserves memory for a hint.
const SPARED_MAX: u64 = 3;

// What is made of a blob or of several.
#[derive(Clone, Copy, Drop)]
enum Made {
    Text,
    Inverse,
    Patchset,
    Concatenation,
    Rebase,
}

// Makes it in this memory. The reader gives so many bytes at a time.
fn make(
    memory: &Memory<Global>,
    made: Made,
    most: usize,
    given: &str,
    written: &mut Vec<u8>,
) -> Result<(), RunFault> {
    let mut reader = Source {
        bytes: given.as_bytes(),
        most,
        failure: Failure::none(),
    };
    match made {
        Made::Text => show_blob(memory, Form::Text, Encoding::Hex, &mut reader, written),
        Made::Inverse => convert_blob(memory, TO_INVERSE, &mut reader, written),
        Made::Patchset => convert_blob(memory, TO_PATCHSET, &mut reader, written),
        Made::Concatenation => combine_blobs(memory, TOGETHER, &mut reader, written),
        Made::Rebase => combine_blobs(memory, OVER_BUFFERS, &mut reader, written),
    }
}

// Whether all of the output was written, or nothing for want of memory.
fn is_as_it_should(outcome: Result<(), RunFault>, output: &str, written: &[u8]) -> bool {
    match outcome {
        Ok(()) => written == output.as_bytes(),
        Err(RunFault::OutOfMemory) => written.is_empty(),
        _ => false,
    }
}

// Makes it with the first request refused, then the second, until none is. How many were refused without a
// fault. None where one does not end as it should, or few are refused.
fn spared(alloc: Global, made: Made, most: usize, given: &str, output: &str) -> Option<u64> {
    let memory = Memory::new(alloc);
    let mut spared = 0u64;
    for number in 1..REQUESTS_MAX {
        memory.refuse(number);
        let mut written = Vec::new(alloc);
        let outcome = make(&memory, made, most, given, &mut written);
        if !is_as_it_should(outcome, output, written.as_slice()) {
            return None;
        }
        if !memory.has_refused() {
            return (outcome.is_ok() && number > spared.saturating_add(11)).then_some(spared);
        }
        spared = spared.saturating_add(outcome.is_ok() as u64);
    }
    None
}

// The most that are refused without a fault, where the input comes whole and byte by byte.
fn most_spared(alloc: Global, made: Made, given: &str, output: &str) -> Option<u64> {
    let whole = spared(alloc, made, 10_000, given, output)?;
    let by_byte = spared(alloc, made, 1, given, output)?;
    Some(whole.max(by_byte))
}

// Whether few are refused without a fault.
fn spares_few(alloc: Global, made: Made, given: &str, output: &str) -> bool {
    match most_spared(alloc, made, given, output) {
        Some(spared) => spared <= SPARED_MAX,
        None => false,
    }
}

#[test]
fn out_of_memory_for_a_blob(rt: HostRuntime) {
    assert!(rt; spares_few(rt.alloc(), Made::Text, CHANGESET, SHOWN));
}

#[test]
fn out_of_memory_for_a_conversion(rt: HostRuntime) {
    assert!(rt; spares_few(rt.alloc(), Made::Inverse, CHANGESET, INVERSE));
    assert!(rt; spares_few(rt.alloc(), Made::Patchset, CHANGESET, PATCHSET));
}

#[test]
fn out_of_memory_for_a_concatenation(rt: HostRuntime) {
    assert!(rt; spares_few(rt.alloc(), Made::Concatenation, TO_JOIN, JOINED));
}

#[test]
fn out_of_memory_for_a_rebase(rt: HostRuntime) {
    assert!(rt; spares_few(rt.alloc(), Made::Rebase, TO_REBASE, REBASED));
}
