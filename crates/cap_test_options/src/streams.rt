//! Readers and writers that fail, that are interrupted, and that give or take one byte at a time.
use crate::rows::{
    CHANGESET, INVERSE, JOINED, OVER_BUFFERS, REBASED, SHOWN, TO_INVERSE, TO_JOIN, TO_REBASE,
    TOGETHER,
};
use crate::watched::{
    Watched, combine_watched, convert_watched, run_watched, serve_watched, show_watched,
};
use cap_run::RunFault;
use cap_test_support::{Failure, Sink, Source};
use std::alloc::{AllocError, Global};
use std::sync::Wait;
use std::thread::Threads;

const WORKLOAD: &str =
    "create t kv\ncommit insert t (2,'a')\nsession\nattach 1 t\n@3 commit insert t (1,'x')\ncommit update t key(2) set 1 = x'00ff'\nchangeset 1\nscan t\n";

const REPLIES: &str =
    "ok version 1\nok version 2\nsession 1\nok\nok version 3\nok version 4\nchangeset 5402010074001200010000000000000001030178170001000000000000000203016100040200ff\nrows 2\n(1,'x')\n(2,x'00ff')\n";

// More calls than any run makes.
const CALLS_MAX: u64 = 100_000;

#[derive(Clone, Copy, Drop)]
enum Program {
    Core,
    Workload,
    Show,
    Invert,
    Concat,
    Rebase,
}

// The programs, each with an input and its output.
const PROGRAMS: &[(Program, &str, &str)] = &[
    (Program::Core, WORKLOAD, REPLIES),
    (Program::Workload, WORKLOAD, REPLIES),
    (Program::Show, CHANGESET, SHOWN),
    (Program::Invert, CHANGESET, INVERSE),
    (Program::Concat, TO_JOIN, JOINED),
    (Program::Rebase, TO_REBASE, REBASED),
];

// Runs a program on these streams. It reports a call that failed.
fn run<T: Threads + Wait + Sync>(
    rt: &T,
    alloc: Global,
    program: Program,
    source: &mut Source<'_>,
    sink: &mut Sink<Global>,
) -> Result<(), RunFault> {
    let mut reader = Watched::new(source);
    let mut writer = Watched::new(sink);
    match program {
        Program::Core => run_watched(alloc, &mut reader, &mut writer),
        Program::Workload => serve_watched(rt, alloc, &mut reader, &mut writer),
        Program::Show => show_watched(alloc, &mut reader, &mut writer),
        Program::Invert => convert_watched(alloc, TO_INVERSE, &mut reader, &mut writer),
        Program::Concat => combine_watched(alloc, TOGETHER, &mut reader, &mut writer),
        Program::Rebase => combine_watched(alloc, OVER_BUFFERS, &mut reader, &mut writer),
    }
}

// A reader of the text, of one byte at a time.
fn source(text: &str, failure: Failure) -> Source<'_> {
    Source {
        bytes: text.as_bytes(),
        most: 1,
        failure,
    }
}

// A writer of one byte at a time.
fn sink(alloc: Global, failure: Failure) -> Sink<Global> {
    Sink {
        taken: Vec::new(alloc),
        most: 1,
        failure,
        flush_fails: false,
    }
}

// Whether a run with this read failing reports it, and writes nothing. The reads after it would succeed.
fn is_read_reported(outcome: Result<(), RunFault>, taken: &[u8]) -> bool {
    matches!(outcome, Err(RunFault::Read)) && taken.is_empty()
}

// Whether a run reports a write that failed, and writes a beginning of the output.
fn is_write_reported(outcome: Result<(), RunFault>, taken: &[u8], output: &str) -> bool {
    matches!(outcome, Err(RunFault::Write)) && output.as_bytes().starts_with(taken)
}

// Whether a program ends so with each read failing in turn, until it makes fewer.
fn reads_may_fail<T: Threads + Wait + Sync>(
    rt: &T,
    alloc: Global,
    program: Program,
    text: &str,
    output: &str,
) -> bool {
    for call in 1..CALLS_MAX {
        let mut reader = source(text, Failure::at(call));
        let mut writer = sink(alloc, Failure::none());
        let outcome = run(rt, alloc, program, &mut reader, &mut writer);
        let taken = writer.taken.as_slice();
        if reader.failure.call > 0 {
            return outcome.is_ok() && taken == output.as_bytes() && call > 100;
        }
        if !is_read_reported(outcome, taken) {
            return false;
        }
    }
    false
}

// Whether a program ends so with each write failing in turn, until it makes fewer. The writes after it would
// succeed.
fn writes_may_fail<T: Threads + Wait + Sync>(
    rt: &T,
    alloc: Global,
    program: Program,
    text: &str,
    output: &str,
) -> bool {
    for call in 1..CALLS_MAX {
        let mut reader = source(text, Failure::none());
        let mut writer = sink(alloc, Failure::at(call));
        let outcome = run(rt, alloc, program, &mut reader, &mut writer);
        let taken = writer.taken.as_slice();
        if writer.failure.call > 0 {
            return outcome.is_ok() && taken == output.as_bytes() && call > 100;
        }
        if !is_write_reported(outcome, taken, output) {
            return false;
        }
    }
    false
}

// Whether a program writes its output with each read and each write interrupted in turn.
fn calls_may_be_interrupted<T: Threads + Wait + Sync>(
    rt: &T,
    alloc: Global,
    program: Program,
    text: &str,
    output: &str,
) -> bool {
    for call in 1..=text.len() as u64 {
        let mut reader = source(text, Failure::interrupted(call));
        let mut writer = sink(alloc, Failure::interrupted(call));
        let outcome = run(rt, alloc, program, &mut reader, &mut writer);
        if outcome.is_err() || writer.taken.as_slice() != output.as_bytes() {
            return false;
        }
    }
    true
}

// Whether a program reports a flush that fails, and has written its output.
fn is_flush_reported<T: Threads + Wait + Sync>(
    rt: &T,
    alloc: Global,
    program: Program,
    text: &str,
    output: &str,
) -> bool {
    let mut reader = source(text, Failure::none());
    let mut writer = sink(alloc, Failure::none());
    writer.flush_fails = true;
    let outcome = run(rt, alloc, program, &mut reader, &mut writer);
    matches!(outcome, Err(RunFault::Write)) && writer.taken.as_slice() == output.as_bytes()
}

// Nothing is run where a read fails.
#[test]
fn each_read_may_fail(rt: HostRuntime) {
    for (program, text, output) in PROGRAMS {
        assert!(rt;
            reads_may_fail(&rt, rt.alloc(), *program, *text, *output),
            "{output}"
        );
    }
    assert!(rt; RunFault::Read.status() == 3);
}

// A beginning of the output is written where a write fails.
#[test]
fn each_write_may_fail(rt: HostRuntime) {
    for (program, text, output) in PROGRAMS {
        assert!(rt;
            writes_may_fail(&rt, rt.alloc(), *program, *text, *output),
            "{output}"
        );
    }
    assert!(rt; RunFault::Write.status() == 3);
}

// An interrupted read or write is made again.
#[test]
fn each_call_may_be_interrupted(rt: HostRuntime) {
    for (program, text, output) in PROGRAMS {
        assert!(rt;
            calls_may_be_interrupted(&rt, rt.alloc(), *program, *text, *output),
            "{output}"
        );
    }
}

#[test]
fn a_flush_that_fails(rt: HostRuntime) {
    for (program, text, output) in PROGRAMS {
        assert!(rt;
            is_flush_reported(&rt, rt.alloc(), *program, *text, *output),
            "{output}"
        );
    }
}

// The text so many times.
fn repeated(alloc: Global, text: &str, count: usize) -> Result<String, AllocError> {
    let mut whole = String::new(alloc);
    for _ in 0..count {
        whole.push_str(text)?;
    }
    Ok(whole)
}

// Whether a program writes this, one byte at a time.
fn writes<T: Threads + Wait + Sync>(
    rt: &T,
    alloc: Global,
    program: Program,
    text: &str,
    output: &str,
) -> bool {
    let mut reader = source(text, Failure::none());
    let mut writer = sink(alloc, Failure::none());
    run(rt, alloc, program, &mut reader, &mut writer).is_ok()
        && writer.taken.as_slice() == output.as_bytes()
}

fn write_many<T: Threads + Wait + Sync>(rt: &T, alloc: Global) -> bool {
    let Ok(text) = repeated(alloc, "attach 1 t\n", 1_000) else {
        return false;
    };
    match repeated(alloc, "refused: E18 NoSession\n", 1_000) {
        Ok(replies) => {
            writes(rt, alloc, Program::Core, text.as_str(), replies.as_str())
                && writes(
                    rt,
                    alloc,
                    Program::Workload,
                    text.as_str(),
                    replies.as_str(),
                )
        }
        Err(_) => false,
    }
}

// A long input and a long output, one byte at a time.
#[test]
fn many_replies(rt: HostRuntime) {
    assert!(rt; write_many(&rt, rt.alloc()));
}

// Whether a program refuses a text for its last byte, and writes nothing.
fn is_no_text<T: Threads + Wait + Sync>(rt: &T, alloc: Global, program: Program) -> bool {
    let mut reader = source("", Failure::none());
    reader.bytes = b"session\nfrob\n'\xff'";
    let mut writer = sink(alloc, Failure::none());
    let outcome = run(rt, alloc, program, &mut reader, &mut writer);
    matches!(outcome, Err(RunFault::NotUtf8)) && writer.taken.is_empty()
}

// The faults of the text before its end are not looked for.
#[test]
fn bytes_that_are_no_text(rt: HostRuntime) {
    assert!(rt; is_no_text(&rt, rt.alloc(), Program::Core));
    assert!(rt; is_no_text(&rt, rt.alloc(), Program::Workload));
    assert!(rt; RunFault::NotUtf8.status() == 1);
}
