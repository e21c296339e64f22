//! Calls of which each request for memory is refused in turn.
use crate::{changes, streams};
use cap_codec::{BlobFault, read_blob};
use cap_test_support::Memory;
use cap_value::{AllocHandle, Fault};
use linked_list_allocator::LocalHeap;
use std::alloc::Global;

/// A call that takes memory.
#[derive(Clone, Copy, Drop)]
pub enum Call<'a> {
    Read(&'a [u8]),
    ReadAndWrite(&'a [u8]),
    Decode(&'a [u8]),
    MakePatches,
    MakeInverse,
}

type Answer = Result<bool, Fault<BlobFault>>;

fn make<A: AllocHandle>(alloc: A, call: Call<'_>) -> Answer {
    match call {
        Call::Read(bytes) => read(alloc, bytes),
        Call::ReadAndWrite(bytes) => streams::read_and_write(alloc, bytes),
        Call::Decode(bytes) => streams::decode(alloc, bytes),
        Call::MakePatches => changes::make_patches(alloc),
        Call::MakeInverse => changes::make_inverse(alloc),
    }
}

fn read<A: AllocHandle>(alloc: A, bytes: &[u8]) -> Answer {
    let _blob = read_blob(alloc, bytes)?;
    Ok(true)
}

// Makes the call with this request refused, and once more: whether the first is out of memory, or else done,
// as the second is. None where anything else comes of it.
fn is_out_of_memory<A: AllocHandle>(
    alloc: A,
    memory: &Memory<&LocalHeap>,
    call: Call<'_>,
    number: u64,
) -> Option<bool> {
    memory.refuse(number);
    let answer = make(alloc, call);
    memory.refuse(0);
    if make(alloc, call) != Ok(true) {
        return None;
    }
    if answer == Err(Fault::OutOfMemory) {
        return memory.has_refused().then_some(true);
    }
    (answer == Ok(true)).then_some(false)
}

/// How many requests the call makes, each of which is refused in turn; and how many of them it is spared:
/// done all the same. For each other one it is out of memory, and is done when it is made again. Nothing is
/// left of it. (0, 0) where anything else comes of it.
pub(crate) fn requests_refused(alloc: Global, call: Call<'_>) -> (u64, u64) {
    let Ok(heap) = LocalHeap::new(alloc, 32768) else {
        return (0, 0);
    };
    let memory = Memory::new(&heap);
    let mut spared = 0u64;
    for number in 1..1_000u64 {
        let outcome = is_out_of_memory(&memory, &memory, call, number);
        if heap.used() != 0 || outcome.is_none() {
            return (0, 0);
        }
        if !memory.has_refused() {
            return (number - 1, spared);
        }
        if outcome == Some(false) {
            spared = spared.saturating_add(1);
        }
    }
    (0, 0)
}
