//! Each request of a run for memory refused in turn.
use crate::rows::{WORKLOADS, WORKLOADS_ALONE};
use cap_locked::CallFault;
use cap_run::{NoGate, Pace, ReplyForm, RunFault, run_core, run_workload};
use cap_test_support::{Failure, Memory, Source};
use std::alloc::Global;
use std::sync::Wait;
use std::thread::Threads;

// More requests than any run makes.
const REQUESTS_MAX: u64 = 100_000;

// The most requests of a run that are refused without a fault: each reserves memory for a hint, where a blob
// is applied.
const SPARED_MAX: u64 = 2;

const NO_MEMORY: &[u8] = b"refused for memory\n";

// Runs a workload in this memory, on one worker's thread or alone. The reader gives so many bytes at a time.
fn run<T: Threads + Wait + Sync>(
    rt: &T,
    memory: &Memory<Global>,
    is_served: bool,
    most: usize,
    text: &str,
    written: &mut Vec<u8>,
) -> Result<(), RunFault> {
    let mut reader = Source {
        bytes: text.as_bytes(),
        most,
        failure: Failure::none(),
    };
    let form = ReplyForm::Text;
    if is_served {
        run_workload(
            rt,
            memory,
            &NoGate,
            1,
            Pace::Free,
            form,
            &mut reader,
            written,
        )
    } else {
        run_core(memory, form, &mut reader, written)
    }
}

// Whether these are the first of the replies, each whole, and then the fault of a command.
fn ends_for_memory(replies: &str, written: &[u8]) -> bool {
    match written.strip_suffix(NO_MEMORY) {
        Some(before) => {
            replies.as_bytes().starts_with(before) && (before.is_empty() || before.ends_with(b"\n"))
        }
        None => false,
    }
}

// Whether a run that met a refused request ended as it should.
fn is_as_it_should(outcome: Result<(), RunFault>, replies: &str, written: &[u8]) -> bool {
    match outcome {
        Ok(()) => written == replies.as_bytes(),
        Err(RunFault::OutOfMemory) => written.is_empty(),
        Err(RunFault::Call(CallFault::OutOfMemory)) => ends_for_memory(replies, written),
        _ => false,
    }
}

// Runs a workload with the first request refused, then the second, until a run meets none. How many runs met
// one and ended well. None where one does not end as it should, or few meet one.
fn spared<T: Threads + Wait + Sync>(
    rt: &T,
    alloc: Global,
    is_served: bool,
    most: usize,
    text: &str,
    replies: &str,
) -> Option<u64> {
    let memory = Memory::new(alloc);
    let mut spared = 0u64;
    for number in 1..REQUESTS_MAX {
        memory.refuse(number);
        let mut written = Vec::new(alloc);
        let outcome = run(rt, &memory, is_served, most, text, &mut written);
        if !is_as_it_should(outcome, replies, written.as_slice()) {
            return None;
        }
        if !memory.has_refused() {
            return (outcome.is_ok() && number > spared.saturating_add(21)).then_some(spared);
        }
        spared = spared.saturating_add(outcome.is_ok() as u64);
    }
    None
}

// Whether few are refused without a fault, where the input comes byte by byte and whole.
fn spares_few<T: Threads + Wait + Sync>(
    rt: &T,
    alloc: Global,
    is_served: bool,
    text: &str,
    replies: &str,
) -> bool {
    let by_byte = spared(rt, alloc, is_served, 1, text, replies);
    match (by_byte, spared(rt, alloc, is_served, 10_000, text, replies)) {
        (Some(by_byte), Some(whole)) => by_byte.max(whole) <= SPARED_MAX,
        _ => false,
    }
}

#[test]
fn each_allocation_of_a_run_may_be_refused(rt: HostRuntime) {
    for (text, replies) in WORKLOADS {
        assert!(rt;
            spares_few(&rt, rt.alloc(), false, *text, *replies),
            "{text}"
        );
        assert!(rt;
            spares_few(&rt, rt.alloc(), true, *text, *replies),
            "{text}"
        );
    }
    for (text, replies) in WORKLOADS_ALONE {
        assert!(rt;
            spares_few(&rt, rt.alloc(), false, *text, *replies),
            "{text}"
        );
    }
    assert!(rt; RunFault::OutOfMemory.status() == 3);
    assert!(rt; RunFault::Call(CallFault::OutOfMemory).status() == 3);
}
