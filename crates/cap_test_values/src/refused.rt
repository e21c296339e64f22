//! Calls of which each request for memory is refused in turn.
use crate::{filters, rows, values};
use cap_test_support::Memory;
use cap_value::{AllocHandle, Fault, Refusal};
use linked_list_allocator::LocalHeap;
use std::alloc::Global;

/// A call that takes memory.
#[derive(Clone, Copy, Drop)]
pub enum Call<'a> {
    MakeValues,
    MakeRows,
    ReadFilter(&'a str),
    PrintFilter(&'a str),
    MakeFilter,
    CopyFilter,
}

type Answer = Result<bool, Fault<Refusal>>;

fn make<A: AllocHandle>(alloc: A, call: Call<'_>) -> Answer {
    match call {
        Call::MakeValues => values::make(alloc),
        Call::MakeRows => rows::make(alloc),
        Call::ReadFilter(text) => filters::read(alloc, text),
        Call::PrintFilter(text) => filters::print(alloc, text),
        Call::MakeFilter => filters::make(alloc),
        Call::CopyFilter => filters::copy(alloc),
    }
}

// Makes the call with this request refused, and once more: whether the first is out of memory, or else has
// the expected answer, as the second has. None where anything else comes of it, or is left of it.
fn is_out_of_memory<A: AllocHandle>(
    alloc: A,
    memory: &Memory<&LocalHeap>,
    call: Call<'_>,
    number: u64,
    expected: Answer,
) -> Option<bool> {
    memory.refuse(number);
    let answer = make(alloc, call);
    memory.refuse(0);
    if make(alloc, call) != expected {
        return None;
    }
    if answer == Err(Fault::OutOfMemory) {
        return memory.has_refused().then_some(true);
    }
    (answer == expected).then_some(false)
}

/// How many requests the call makes, where for each that is refused it is out of memory, leaves nothing,
/// and has its answer when it is made again; else 0. A row's list that may not shrink stays as it is, and
/// the call is done.
pub(crate) fn requests_refused(alloc: Global, call: Call<'_>) -> u64 {
    let expected = make(alloc, call);
    let Ok(heap) = LocalHeap::new(alloc, 32768) else {
        return 0;
    };
    let memory = Memory::new(&heap);
    for number in 1..1000u64 {
        let outcome = is_out_of_memory(&memory, &memory, call, number, expected);
        if heap.used() != 0 || outcome.is_none() {
            return 0;
        }
        if !memory.has_refused() {
            return number - 1;
        }
        if outcome == Some(false) && !matches!(call, Call::MakeRows) {
            return 0;
        }
    }
    0
}
