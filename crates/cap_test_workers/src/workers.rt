//! Workloads on threads: what they print, and in which order.

ghost use Rattle.std.specs.Prelude.{◌≤◌};

use crate::rows::ROWS;
use cap_run::{Gate, NoGate, Pace, ReplyForm, RunFault, run_workload};
use std::alloc::Global;
use std::sync::Wait;
use std::sync::atomic::{AtomicU64, Ordering};
use std::thread::{Threads, yield_now};

// The most turns for which a gate waits.
const TURNS_MAX: u64 = 200_000_000;

const TWO: &str =
    "create t kv\nsession\nattach 1 t\n@0 commit insert t (1,'a')\n@1 commit insert t (2,'b')\nchangeset 1";

const TWO_CHANGESET: &str =
    "changeset 54020100740012000100000000000000010301611200010000000000000002030162\n";

const FOUR: &str =
    "create t kv\nsession\nattach 1 t\n@0 commit insert t (0,'v')\n@1 commit insert t (1,'v')\n\n# between\n@2 commit insert t (2,'v')\n@3 commit insert t (3,'v')\nchangeset 1\n";

const FOUR_CHANGESET: &str =
    "changeset 5402010074001200010000000000000000030176120001000000000000000103017612000100000000000000020301761200010000000000000003030176\n";

const EIGHT: &str =
    "create t kv\nsession\nattach 1 t\n@0 commit insert t (0,'v')\n@1 commit insert t (1,'v')\n@2 commit insert t (2,'v')\n@3 commit insert t (3,'v')\n@4 commit insert t (4,'v')\n@5 commit insert t (5,'v')\n@6 commit insert t (6,'v')\n@7 commit insert t (7,'v')\nchangeset 1\n";

const EIGHT_CHANGESET: &str =
    "changeset 54020100740012000100000000000000000301761200010000000000000001030176120001000000000000000203017612000100000000000000030301761200010000000000000004030176120001000000000000000503017612000100000000000000060301761200010000000000000007030176\n";

// A table that a session has attached.
const BEFORE_REPLIES: &str = "ok version 1\nsession 1\nok\n";

// The replies to commits, by their places.
const COMMIT_REPLIES: &[&str] = &[
    "ok version 2\n",
    "ok version 3\n",
    "ok version 4\n",
    "ok version 5\n",
    "ok version 6\n",
    "ok version 7\n",
    "ok version 8\n",
    "ok version 9\n",
];

// Runs a workload, which writes into `written`.
fn run<T: Threads + Wait + Sync, G: Gate>(
    rt: &T,
    alloc: Global,
    gate: &G,
    threads: u64,
    pace: Pace,
    text: &str,
    written: &mut Vec<u8>,
) -> Result<(), RunFault>
    requires { (1 ≤ threads) × (threads ≤ 63) }
{
    let mut reader = text.as_bytes();
    let form = ReplyForm::Text;
    let outcome = run_workload(rt, alloc, gate, threads, pace, form, &mut reader, written);
    outcome
}

// Whether the text has each of the first replies to commits, behind those before, one line each, and ends
// with this.
fn has_commits(text: &str, count: usize, last: &str) -> bool {
    for reply in COMMIT_REPLIES.iter().take(count) {
        if !text.contains(*reply) {
            return false;
        }
    }
    text.starts_with(BEFORE_REPLIES)
        && text.ends_with(last)
        && text.lines().count() == count.saturating_add(4)
}

// Whether the run ends well and writes the replies to so many commits in any order, and then this.
fn ends_with<T: Threads + Wait + Sync, G: Gate>(
    rt: &T,
    alloc: Global,
    gate: &G,
    threads: u64,
    text: &str,
    count: usize,
    last: &str,
) -> bool
    requires { (1 ≤ threads) × (threads ≤ 63) }
{
    let mut written = Vec::new(alloc);
    if run(rt, alloc, gate, threads, Pace::Free, text, &mut written).is_err() {
        return false;
    }
    match str::from_utf8(written.as_slice()) {
        Ok(replies) => has_commits(replies, count, last),
        Err(_) => false,
    }
}

// Whether the run ends well and writes this.
fn writes<T: Threads + Wait + Sync, G: Gate>(
    rt: &T,
    alloc: Global,
    gate: &G,
    threads: u64,
    pace: Pace,
    text: &str,
    replies: &str,
) -> bool
    requires { (1 ≤ threads) × (threads ≤ 63) }
{
    let mut written = Vec::new(alloc);
    run(rt, alloc, gate, threads, pace, text, &mut written).is_ok()
        && written.as_slice() == replies.as_bytes()
}

// What is written where the commits have these places, and then this.
fn replies_at(alloc: Global, places: &[usize], last: &str) -> Option<String> {
    let mut replies = String::from_str(alloc, BEFORE_REPLIES).ok()?;
    for place in places {
        replies.push_str(COMMIT_REPLIES.get(*place)?).ok()?;
    }
    replies.push_str(last).ok()?;
    Some(replies)
}

#[test]
fn two_workers(rt: HostRuntime) {
    assert!(rt; ends_with(&rt, rt.alloc(), &NoGate, 1, TWO, 2, TWO_CHANGESET));
    assert!(rt; ends_with(&rt, rt.alloc(), &NoGate, 4, TWO, 2, TWO_CHANGESET));
}

#[test]
fn eight_lines(rt: HostRuntime) {
    assert!(rt; ends_with(&rt, rt.alloc(), &NoGate, 1, EIGHT, 8, EIGHT_CHANGESET));
    assert!(rt; ends_with(&rt, rt.alloc(), &NoGate, 3, EIGHT, 8, EIGHT_CHANGESET));
    assert!(rt; ends_with(&rt, rt.alloc(), &NoGate, 4, EIGHT, 8, EIGHT_CHANGESET));
    assert!(rt; ends_with(&rt, rt.alloc(), &NoGate, 8, EIGHT, 8, EIGHT_CHANGESET));
}

// Waits until the cell shows the number. Says so in `missed` where it does not come.
fn wait_for(cell: &AtomicU64, number: u64, missed: &AtomicU64) {
    for _ in 0..TURNS_MAX {
        if cell.load(Ordering::SeqCst) == number {
            return;
        }
        yield_now();
    }
    missed.store(1, Ordering::SeqCst);
}

// Releases eight workers at once, when the last of them is about to call.
#[derive(Drop)]
struct Barrier {
    arrived: AtomicU64,
    missed: AtomicU64,
}

impl Gate for Barrier {
    fn before(&self, _worker: u64, _call: u64) {
        self.arrived.fetch_add(1, Ordering::SeqCst);
        wait_for(&self.arrived, 8, &self.missed);
    }

    fn after(&self, _worker: u64, _call: u64) {}
}

// Whether eight workers that are released at once have their replies.
fn runs_free<T: Threads + Wait + Sync>(rt: &T, alloc: Global) -> bool {
    let gate = Barrier {
        arrived: AtomicU64::new(0),
        missed: AtomicU64::new(0),
    };
    ends_with(rt, alloc, &gate, 8, EIGHT, 8, EIGHT_CHANGESET)
        && gate.missed.load(Ordering::SeqCst) == 0
}

// A run whose call is overtaken has no reply to it, and does not end well.
#[test]
fn no_call_is_overtaken(rt: HostRuntime) {
    for round in 0..100 {
        assert!(rt; runs_free(&rt, rt.alloc()), "{round}");
    }
}

// Whether this is the fault of the line, and its text.
fn is_fault_of_the_line(alloc: Global, fault: &RunFault) -> bool {
    match format!(in alloc; "{fault}") {
        Ok(text) => fault.status() == 1 && text.as_str() == "line 1: G1 Syntax at 1",
        Err(_) => false,
    }
}

fn refuses_worker_64<T: Threads + Wait + Sync>(rt: &T, alloc: Global) -> bool {
    let mut written = Vec::new(alloc);
    let outcome = run(
        rt,
        alloc,
        &NoGate,
        4,
        Pace::Free,
        "@64 session",
        &mut written,
    );
    match outcome {
        Ok(()) => false,
        Err(fault) => is_fault_of_the_line(alloc, &fault) && written.is_empty(),
    }
}

#[test]
fn worker_beyond_the_last(rt: HostRuntime) {
    assert!(rt; refuses_worker_64(&rt, rt.alloc()));
}

// Lets no call begin before the other worker's is to begin.
#[derive(Drop)]
struct Meeting {
    first: AtomicU64,
    second: AtomicU64,
    missed: AtomicU64,
}

impl Gate for Meeting {
    fn before(&self, worker: u64, _call: u64) {
        let (mine, other) = if worker == 0 {
            (&self.first, &self.second)
        } else {
            (&self.second, &self.first)
        };
        mine.store(1, Ordering::SeqCst);
        wait_for(other, 1, &self.missed);
    }

    fn after(&self, _worker: u64, _call: u64) {}
}

fn is_either(written: &[u8]) -> bool {
    written == b"session 1\nsession 2\n".as_slice()
        || written == b"session 2\nsession 1\n".as_slice()
}

fn meet<T: Threads + Wait + Sync>(rt: &T, alloc: Global) -> bool {
    let gate = Meeting {
        first: AtomicU64::new(0),
        second: AtomicU64::new(0),
        missed: AtomicU64::new(0),
    };
    let mut written = Vec::new(alloc);
    let text = "@0 session\n@1 session\n";
    run(rt, alloc, &gate, 2, Pace::Free, text, &mut written).is_ok()
        && gate.missed.load(Ordering::SeqCst) == 0
        && is_either(written.as_slice())
}

// A run on one thread cannot pass this gate.
#[test]
fn two_calls_meet(rt: HostRuntime) {
    assert!(rt; meet(&rt, rt.alloc()));
}

// Lets four workers call one after the other, each when its turn has come.
#[derive(Drop)]
struct Turns {
    // The place of each worker's turn.
    places: [usize; 4],
    next: AtomicU64,
    missed: AtomicU64,
}

impl Turns {
    fn place_of(&self, worker: u64) -> u64 {
        match self.places.get(worker as usize) {
            Some(place) => *place as u64,
            None => 0,
        }
    }
}

impl Gate for Turns {
    fn before(&self, worker: u64, _call: u64) {
        wait_for(&self.next, self.place_of(worker), &self.missed);
    }

    fn after(&self, worker: u64, _call: u64) {
        self.next
            .store(self.place_of(worker).saturating_add(1), Ordering::SeqCst);
    }
}

// Each order in which four workers may call.
const ORDERS: &[[usize; 4]] = &[
    [0, 1, 2, 3],
    [0, 1, 3, 2],
    [0, 2, 1, 3],
    [0, 2, 3, 1],
    [0, 3, 1, 2],
    [0, 3, 2, 1],
    [1, 0, 2, 3],
    [1, 0, 3, 2],
    [1, 2, 0, 3],
    [1, 2, 3, 0],
    [1, 3, 0, 2],
    [1, 3, 2, 0],
    [2, 0, 1, 3],
    [2, 0, 3, 1],
    [2, 1, 0, 3],
    [2, 1, 3, 0],
    [2, 3, 0, 1],
    [2, 3, 1, 0],
    [3, 0, 1, 2],
    [3, 0, 2, 1],
    [3, 1, 0, 2],
    [3, 1, 2, 0],
    [3, 2, 0, 1],
    [3, 2, 1, 0],
];

// Whether each line's reply is that of its own call where worker K calls at place K of these.
fn answers_at<T: Threads + Wait + Sync>(rt: &T, alloc: Global, places: [usize; 4]) -> bool {
    let gate = Turns {
        places,
        next: AtomicU64::new(0),
        missed: AtomicU64::new(0),
    };
    let Some(replies) = replies_at(alloc, &places, FOUR_CHANGESET) else {
        return false;
    };
    writes(rt, alloc, &gate, 4, Pace::Free, FOUR, replies.as_str())
        && gate.missed.load(Ordering::SeqCst) == 0
}

// Whatever the order of the calls, each line's reply is that of its own call, and they stand in the order of
// the lines.
#[test]
fn every_order_of_four_calls(rt: HostRuntime) {
    for places in ORDERS {
        assert!(rt; answers_at(&rt, rt.alloc(), *places), "{places:?}");
    }
}

// Holds the workers of the first lines up before their calls.
#[derive(Clone, Copy, Drop)]
struct LastFirst;

impl Gate for LastFirst {
    fn before(&self, worker: u64, _call: u64) {
        for _ in worker..8 {
            for _ in 0..1_000 {
                yield_now();
            }
        }
    }

    fn after(&self, _worker: u64, _call: u64) {}
}

const IN_ORDER: &[usize] = &[0, 1, 2, 3, 4, 5, 6, 7];

// Whether the replies stand in the order of the lines.
fn answers_in_turn<T: Threads + Wait + Sync>(rt: &T, alloc: Global, threads: u64) -> bool
    requires { (1 ≤ threads) × (threads ≤ 63) }
{
    match replies_at(alloc, IN_ORDER, EIGHT_CHANGESET) {
        Some(replies) => {
            let pace = Pace::InTurn;
            writes(
                rt,
                alloc,
                &LastFirst,
                threads,
                pace,
                EIGHT,
                replies.as_str(),
            )
        }
        None => false,
    }
}

// In turn each line is called behind those before it, though their workers are slower.
#[test]
fn lines_in_turn(rt: HostRuntime) {
    assert!(rt; answers_in_turn(&rt, rt.alloc(), 1));
    assert!(rt; answers_in_turn(&rt, rt.alloc(), 3));
    assert!(rt; answers_in_turn(&rt, rt.alloc(), 8));
}

// Counts each worker's calls, and the calls that do not come in their order or behind the gate.
#[derive(Drop)]
struct Counting {
    before: [AtomicU64; 3],
    after: [AtomicU64; 3],
    odd: AtomicU64,
}

impl Counting {
    fn count(&self, counts: &[AtomicU64; 3], worker: u64, call: u64) {
        let found = match counts.get(worker as usize) {
            Some(count) => count.fetch_add(1, Ordering::SeqCst),
            None => u64::MAX,
        };
        if found != call {
            self.odd.store(1, Ordering::SeqCst);
        }
    }
}

impl Gate for Counting {
    fn before(&self, worker: u64, call: u64) {
        self.count(&self.before, worker, call);
    }

    fn after(&self, worker: u64, call: u64) {
        self.count(&self.after, worker, call);
    }
}

fn are_counts(counts: &[AtomicU64; 3], wanted: [u64; 3]) -> bool {
    for place in 0..3 {
        if counts[place].load(Ordering::SeqCst) != wanted[place] {
            return false;
        }
    }
    true
}

// Whether each worker's calls are these, numbered from 0.
fn has_counted(gate: &Counting) -> bool {
    gate.odd.load(Ordering::SeqCst) == 0
        && are_counts(&gate.before, [4, 1, 1])
        && are_counts(&gate.after, [4, 1, 1])
}

// Whether there are eight replies, of which these are the last.
fn are_eight(written: &[u8]) -> bool {
    match str::from_utf8(written) {
        Ok(replies) => {
            replies.lines().count() == 8
                && replies.ends_with("session 3\ntrue\nrefused: E18 NoSession\ntrue\ntrue\n")
        }
        Err(_) => false,
    }
}

fn counts_calls<T: Threads + Wait + Sync>(rt: &T, alloc: Global) -> bool {
    let gate = Counting {
        before: [AtomicU64::new(0), AtomicU64::new(0), AtomicU64::new(0)],
        after: [AtomicU64::new(0), AtomicU64::new(0), AtomicU64::new(0)],
        odd: AtomicU64::new(0),
    };
    let text =
        "@0 session\n@3 isempty 1\n@2 session\nsession\nisempty 3\n@1 isempty 9\n@0 isempty 1\n@63 isempty 1\n";
    let mut written = Vec::new(alloc);
    run(rt, alloc, &gate, 3, Pace::Free, text, &mut written).is_ok()
        && has_counted(&gate)
        && are_eight(written.as_slice())
}

// Each worker's calls pass the gate one after the other, numbered over all blocks, and the others do not.
#[test]
fn calls_at_the_gate(rt: HostRuntime) {
    assert!(rt; counts_calls(&rt, rt.alloc()));
}

// Holds each worker up for a while before its call.
#[derive(Clone, Copy, Drop)]
struct Slow;

impl Gate for Slow {
    fn before(&self, _worker: u64, _call: u64) {
        for _ in 0..10_000 {
            yield_now();
        }
    }

    fn after(&self, _worker: u64, _call: u64) {}
}

// A line behind a block is called when the block has ended, and so is a block behind a line.
#[test]
fn a_block_ends_before_what_follows(rt: HostRuntime) {
    let text = "@0 session\nisempty 1\n@1 drop 1\nisempty 1\n@1 session\n@1 isempty 2\ndrop 2\n";
    let replies = "session 1\ntrue\nok\nrefused: E18 NoSession\nsession 2\ntrue\nok\n";
    assert!(rt; writes(&rt, rt.alloc(), &Slow, 2, Pace::Free, text, replies));
}

// One worker's thread writes what one thread writes.
#[test]
fn rows_of_one_worker(rt: HostRuntime) {
    for (text, replies) in ROWS {
        assert!(rt;
            writes(&rt, rt.alloc(), &NoGate, 1, Pace::Free, *text, *replies),
            "{text}"
        );
    }
}
