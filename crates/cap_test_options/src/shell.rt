//! Shells: lines with the reply and the fault of each, refused memory, and streams that fail.
use crate::watched::{Watched, shell_watched};
use cap_locked::CallFault;
use cap_run::{RunFault, run_shell};
use cap_test_support::{Failure, Memory, Sink, Source};
use std::alloc::{AllocError, Global};

// More calls and requests than any shell makes.
const CALLS_MAX: u64 = 100_000;

// The most requests that are refused without a fault.
const SPARED_MAX: u64 = 0;

const NO_MEMORY: &[u8] = b"refused for memory\n";

// Lines, each with the reply and the fault that are written for it.
const LINES: &[(&[u8], &str, &str)] = &[
    (b"create t kv", "ok version 1\n", ""),
    (b"# a note", "", ""),
    (b"", "", ""),
    (b"comit insert t (1,'x')", "", "line 4: G1 Syntax at 0\n"),
    (b"session", "session 1\n", ""),
    (b"  ", "", ""),
    (b"attach 1 t", "ok\n", ""),
    (
        b"commit insert t (1,'x') ; insert t (1,'y')",
        "refused at 1: E5 Duplicate\n",
        "",
    ),
    (b"create u kx", "", "line 9: G1 Syntax at 9\n"),
    (b"commit insert t (1,'\xff')", "", "line 10: not UTF-8\n"),
    (b"@3 commit insert t (1,'x')", "ok version 2\n", ""),
    (
        b"apply x'00' omit omit omit",
        "",
        "line 12: G3 D2 BadHeader at 0\n",
    ),
    (
        b"changeset 1",
        "changeset 5402010074001200010000000000000001030178\n",
        "",
    ),
    (b"scan t", "rows 1\n(1,'x')\n", ""),
    (b"begin", "ok\n", ""),
    (b"insert t (2,'y')", "ok\n", ""),
    (b"savepoint", "savepoint 0\n", ""),
    (b"insert t", "", "line 18: G1 Syntax at 8\n"),
    (b"delete t key(1)", "ok\n", ""),
    (b"rollback to 0", "ok\n", ""),
    (b"get t key(1)", "row (1,'x')\n", ""),
    (b"begin", "refused: E22 InTransaction\n", ""),
    (b"end", "ok version 3\n", ""),
    (b"rollback", "refused: E21 NoTransaction\n", ""),
];

// The text of some lines, and what is written for them.
#[derive(Drop)]
struct Lines {
    text: Vec<u8>,
    replies: Vec<u8>,
    faults: Vec<u8>,
}

// The first lines, each with a line feed but the last.
fn first_lines(alloc: Global, count: usize) -> Result<Lines, AllocError> {
    let mut lines = Lines {
        text: Vec::new(alloc),
        replies: Vec::new(alloc),
        faults: Vec::new(alloc),
    };
    for (line, reply, fault) in LINES.iter().take(count) {
        if !lines.text.is_empty() {
            lines.text.extend_from_slice(b"\n")?;
        }
        lines.text.extend_from_slice(line)?;
        lines.replies.extend_from_slice(reply.as_bytes())?;
        lines.faults.extend_from_slice(fault.as_bytes())?;
    }
    Ok(lines)
}

fn source(bytes: &[u8], most: usize, failure: Failure) -> Source<'_> {
    Source {
        bytes,
        most,
        failure,
    }
}

fn sink(alloc: Global, failure: Failure) -> Sink<Global> {
    Sink {
        taken: Vec::new(alloc),
        most: 1,
        failure,
        flush_fails: false,
    }
}

fn run(
    alloc: Global,
    reader: &mut Source<'_>,
    replies: &mut Sink<Global>,
    faults: &mut Sink<Global>,
) -> Result<(), RunFault> {
    let (mut replies, mut faults) = (Watched::new(replies), Watched::new(faults));
    shell_watched(alloc, &mut Watched::new(reader), &mut replies, &mut faults)
}

// Whether a shell writes the replies and the faults of the lines, where they come in pieces of this length.
fn answers_in_pieces(alloc: Global, lines: &Lines, most: usize) -> bool {
    let mut reader = source(lines.text.as_slice(), most, Failure::none());
    let mut replies = sink(alloc, Failure::none());
    let mut faults = sink(alloc, Failure::none());
    let outcome = run(alloc, &mut reader, &mut replies, &mut faults);
    outcome.is_ok() && replies.taken == lines.replies && faults.taken == lines.faults
}

// The lengths of the pieces.
const LENGTHS: &[usize] = &[1, 2, 3, 7, 10_000];

// Whether a shell does so with the first lines in pieces of each length.
fn answers_lines(alloc: Global, count: usize) -> bool {
    let Ok(lines) = first_lines(alloc, count) else {
        return false;
    };
    for most in LENGTHS {
        if !answers_in_pieces(alloc, &lines, *most) {
            return false;
        }
    }
    true
}

// The last line lacks its line feed. The lines come in pieces of each length.
#[test]
fn lines_and_replies(rt: HostRuntime) {
    for count in 0..=LINES.len() {
        assert!(rt; answers_lines(rt.alloc(), count), "{count}");
    }
}

// Whether these are a beginning of the replies and of the faults.
fn is_beginning(lines: &Lines, replies: &[u8], faults: &[u8]) -> bool {
    lines.replies.as_slice().starts_with(replies) && lines.faults.as_slice().starts_with(faults)
}

// Whether a shell reports each read that fails, until it makes fewer, and writes the first replies and
// faults.
fn reads_may_fail(alloc: Global, lines: &Lines) -> bool {
    for call in 1..CALLS_MAX {
        let mut reader = source(lines.text.as_slice(), 7, Failure::at(call));
        let mut replies = sink(alloc, Failure::none());
        let mut faults = sink(alloc, Failure::none());
        let outcome = run(alloc, &mut reader, &mut replies, &mut faults);
        if reader.failure.call > 0 {
            return outcome.is_ok() && call > 20;
        }
        let is_reported = matches!(outcome, Err(RunFault::Read));
        if !is_reported || !is_beginning(lines, replies.taken.as_slice(), faults.taken.as_slice()) {
            return false;
        }
    }
    false
}

fn reports_reads(alloc: Global) -> bool {
    match first_lines(alloc, LINES.len()) {
        Ok(lines) => reads_may_fail(alloc, &lines),
        Err(_) => false,
    }
}

#[test]
fn each_read_of_a_shell_may_fail(rt: HostRuntime) {
    assert!(rt; reports_reads(rt.alloc()));
}

// Whether a shell reports a write of a reply or a fault that fails, and writes a beginning of both.
fn is_write_reported(alloc: Global, lines: &Lines, first: Failure, second: Failure) -> bool {
    let mut reader = source(lines.text.as_slice(), 100, Failure::none());
    let mut replies = sink(alloc, first);
    let mut faults = sink(alloc, second);
    let outcome = run(alloc, &mut reader, &mut replies, &mut faults);
    matches!(outcome, Err(RunFault::Write))
        && is_beginning(lines, replies.taken.as_slice(), faults.taken.as_slice())
}

fn reports_writes(alloc: Global) -> bool {
    let Ok(lines) = first_lines(alloc, LINES.len()) else {
        return false;
    };
    for call in 1..40 {
        let (fails, none) = (Failure::at(call), Failure::none());
        if !is_write_reported(alloc, &lines, fails, none)
            || !is_write_reported(alloc, &lines, none, fails)
        {
            return false;
        }
    }
    true
}

#[test]
fn each_write_of_a_shell_may_fail(rt: HostRuntime) {
    assert!(rt; reports_writes(rt.alloc()));
}

// Whether the first of the replies were written, and then the fault of a command.
fn ends_for_memory(outcome: Result<(), RunFault>, lines: &Lines, written: &[u8]) -> bool {
    let is_reported = matches!(outcome, Err(RunFault::Call(CallFault::OutOfMemory)));
    match written.strip_suffix(NO_MEMORY) {
        Some(before) => is_reported && lines.replies.as_slice().starts_with(before),
        None => false,
    }
}

// Runs a shell with the first request for memory refused, then the second, until it meets none. How many were
// refused without a fault. None where it does not end as it should, or few are refused. The reader gives so
// many bytes at a time.
fn spared(alloc: Global, lines: &Lines, most: usize) -> Option<u64> {
    let memory = Memory::new(alloc);
    let mut spared = 0u64;
    for number in 1..CALLS_MAX {
        memory.refuse(number);
        let (mut written, mut faults) = (Vec::new(alloc), Vec::new(alloc));
        let mut reader = source(lines.text.as_slice(), most, Failure::none());
        let outcome = run_shell(&memory, &mut reader, &mut written, &mut faults);
        let is_whole = outcome.is_ok() && written == lines.replies;
        if !is_whole && !ends_for_memory(outcome, lines, written.as_slice()) {
            return None;
        }
        if !memory.has_refused() {
            return (is_whole && number > spared.saturating_add(21)).then_some(spared);
        }
        spared = spared.saturating_add(is_whole as u64);
    }
    None
}

// Whether few are refused without a fault, where the input comes byte by byte and whole.
fn spares_few(alloc: Global) -> bool {
    let Ok(lines) = first_lines(alloc, LINES.len()) else {
        return false;
    };
    match (spared(alloc, &lines, 1), spared(alloc, &lines, 10_000)) {
        (Some(by_byte), Some(whole)) => by_byte.max(whole) <= SPARED_MAX,
        _ => false,
    }
}

#[test]
fn each_allocation_of_a_shell_may_be_refused(rt: HostRuntime) {
    assert!(rt; spares_few(rt.alloc()));
}
