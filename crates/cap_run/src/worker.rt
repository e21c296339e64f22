//! A worker of a workload, and its calls.
ghost use Rattle.std.specs.Prelude.{◌≡◌, ◌++◌, ◌∷◌, ◌<◌, ◌≤◌, [], IfErr, MatchBool, OnOk, OnErr, List, ℕ, length};
ghost use Rattle.std.specs.Prelude.{map, string_bytes};
ghost use Rattle.cap_run.specs.Code.Calls.{HasCalledLine, HasCalledLines, HasSeen, KeepsCalls, seat_lines};
ghost use Rattle.cap_run.specs.Threads.{IsThreadCount};
ghost use Rattle.cap_run.specs.Workload.{seat_of};
ghost use Rattle.cap_replies.specs.Printed.{HasRoomFor, IsMade};
ghost use Rattle.cap_core.specs.declared.reply.Reply.{Reply};
ghost use Rattle.cap_history.specs.Seat.{HasCalled};
ghost use Rattle.cap_locked.specs.Fault.{LeavesSeat};

use crate::Gate;
use cap_locked::{CallFault, HookFault};
use cap_replies::{Printer, ReplyForm, RunLine, append_made};
use cap_server::{Naming, Seat, Server};
use cap_value::AllocHandle;
use std::sync::Wait;
use std::sync::atomic::{AtomicU64, Ordering};
use std::time::Duration;

// The microseconds of a turn of waiting in which no line is called.
const TURN_MICROS: u64 = 100;

// For how many turns a worker waits at most before a line: an hour.
const TURNS_MAX: u64 = 36_000_000;

// More lines than any block has.
const ALL_CALLED: u64 = 1 << 62;

// What all workers of a run share.
#[derive(Drop)]
pub(crate) struct Shared<'r, J: Naming, A: AllocHandle, T: Wait, G: Gate> {
    pub(crate) rt: &'r T,
    pub(crate) alloc: A,
    pub(crate) server: &'r Server<J, A>,
    pub(crate) gate: &'r G,
    // In which form the fault is printed at which a run ends.
    pub(crate) form: ReplyForm,
    // The number of workers, without seat 0.
    pub(crate) threads: u64,
    // Whether each line waits for the lines of its block before it.
    pub(crate) is_in_turn: bool,
}

// A worker: its seat, and the outcome of its lines of a block.
#[derive(Drop)]
pub(crate) struct Worker<J: Naming, A: AllocHandle> {
    pub(crate) seat: Seat<J, A>,
    // The number of lines that it was given before.
    pub(crate) given: u64,
    // The texts of its replies in order, each with a line feed.
    pub(crate) texts: Vec<String<A>, A>,
    // The fault of the line after those, if any.
    pub(crate) ended: Result<(), CallFault>,
}

// The seat from which a line is called, by the number after its `@`.
pub(crate) fn seat_of(threads: u64, worker: Option<u64>) -> u64
    requires { IsThreadCount threads }
    ensures seat { result ≡ seat_of threads worker }
    ensures most { result ≤ threads }
{
    match worker {
        None => 0,
        Some(number) => number % threads + 1,
    }
}

// Whether a line of the block is called from the seat.
pub(crate) fn is_given<A: AllocHandle>(threads: u64, seat: u64, block: &[RunLine<A>]) -> bool
    requires { IsThreadCount threads }
    ensures { MatchBool result (0 < length (seat_lines threads seat block.now))
        (seat_lines threads seat block.now ≡ []) }
{
    for line in block {
        if seat_of(threads, line.line.worker) == seat {
            return true;
        }
    }
    false
}

// Lets a worker call its lines of a block in order, until one has a fault.
pub(crate) fn answer_lines<J: Naming, A: AllocHandle, T: Wait, G: Gate>(
    shared: &Shared<'_, J, A, T, G>,
    called: &AtomicU64,
    block: &[RunLine<A>],
    worker: &mut Worker<J, A>,
) -> Result<(), CallFault>
    requires threads { IsThreadCount shared.now.threads }
    requires none { worker.old.texts.items ≡ [] }
    ensures called { HasCalledLines shared.now.threads
        (seat_lines shared.now.threads worker.old.seat.number block.now)
        result (map string_bytes worker.new.texts.items) worker.old.seat worker.new.seat }
{
    let number = worker.seat.number();
    let mut before = 0u64;
    for line in block {
        if seat_of(shared.threads, line.line.worker) == number {
            wait_for_turn(shared.rt, shared.is_in_turn, called, before);
            answer_own(shared, called, worker, line)?;
        }
        before = before.saturating_add(1);
    }
    Ok(())
}

// Where lines are called in turn, waits until this many lines of the block were called. A turn sleeps, so
// that other workers run even where all processors are busy.
fn wait_for_turn<T: Wait>(rt: &T, is_in_turn: bool, called: &AtomicU64, before: u64) {
    if !is_in_turn {
        return;
    }
    for _ in 0..TURNS_MAX {
        let seen = called.load(Ordering::SeqCst);
        if seen >= before {
            return;
        }
        // The sleep ends early where the lower half of the word changes.
        let low = (seen % (1 << 32)) as u32;
        called.park_timeout(rt, low, Duration::from_micros(TURN_MICROS));
    }
}

// Lets all workers go on where this one ended at a fault, as its other lines will not be called.
pub(crate) fn let_all_go_on(called: &AtomicU64, ended: Result<(), CallFault>) {
    if ended.is_err() {
        called.store(ALL_CALLED, Ordering::SeqCst);
    }
}

// Lets a worker call a line, with the gate before and after.
fn answer_own<J: Naming, A: AllocHandle, T: Wait, G: Gate>(
    shared: &Shared<'_, J, A, T, G>,
    called: &AtomicU64,
    worker: &mut Worker<J, A>,
    line: &RunLine<A>,
) -> Result<(), CallFault>
    ensures ok { OnOk result ((text : List ℕ) × HasCalledLine line.now text worker.old.seat worker.new.seat
        × (map string_bytes worker.new.texts.items ≡ map string_bytes worker.old.texts.items ++ text ∷ [])) }
    ensures err { OnErr result (KeepsCalls worker.old.seat worker.new.seat
        × (worker.new.texts.items ≡ worker.old.texts.items)) }
    ensures fault { HasSeen result worker.new.seat }
{
    // Seat 0 belongs to no worker.
    let number = worker.seat.number().saturating_sub(1);
    let call = worker.given;
    worker.given = call.saturating_add(1);
    // Room for the text first: a line that was called has its reply.
    if worker.texts.reserve(1).is_err() {
        return Err(CallFault::OutOfMemory);
    }
    shared.gate.before(number, call);
    let mut text = String::new(shared.alloc);
    let answer = call_line(
        shared.rt,
        shared.alloc,
        shared.server,
        &mut worker.seat,
        line,
        &mut text,
    );
    called.fetch_add(1, Ordering::SeqCst);
    shared.gate.after(number, call);
    answer?;
    worker.texts.push_reserved(text);
    Ok(())
}

// Calls a line's command from a seat. The reply is made before the call is an event, and appended to `output` as
// a line: a line that is refused for memory has not been called.
pub(crate) fn call_line<J: Naming, A: AllocHandle, T: Wait>(
    rt: &T,
    alloc: A,
    server: &Server<J, A>,
    seat: &mut Seat<J, A>,
    line: &RunLine<A>,
    output: &mut String<A>,
) -> Result<(), CallFault>
    ensures ok { OnOk result ((text : List ℕ) × (string_bytes output.new ≡ string_bytes output.old ++ text)
        × HasCalledLine line.now text seat.old seat.new) }
    ensures err { OnErr result ((string_bytes output.new ≡ string_bytes output.old)
        × KeepsCalls seat.old seat.new) }
    ensures fault { HasSeen result seat.new }
{
    let mut made = String::new(alloc);
    call_printing(rt, &alloc, server, seat, line, &mut made, output)?;
    append_made(output, &made);
    Ok(())
}

// Calls a line's command from a seat, with the hook that prints.
fn call_printing<J: Naming, A: AllocHandle, T: Wait>(
    rt: &T,
    alloc: &A,
    server: &Server<J, A>,
    seat: &mut Seat<J, A>,
    line: &RunLine<A>,
    made: &mut String<A>,
    output: &mut String<A>,
) -> Result<(), CallFault>
    ensures called { OnOk result ((reply : Reply A) × HasCalled seat.old seat.new line.now.line.command reply
        × IsMade line.now reply made.new) }
    ensures room { OnOk result (HasRoomFor made.new output.new) }
    ensures left { IfErr result (λ fault. LeavesSeat fault seat.old seat.new) }
    ensures same { string_bytes output.new ≡ string_bytes output.old }
{
    let mut printer = Printer {
        alloc,
        line,
        made,
        output,
    };
    match server.call_with_hook(rt, seat, &line.line.command, &mut printer) {
        Ok(_) => Ok(()),
        Err(HookFault::Refused(_)) => Err(CallFault::OutOfMemory),
        Err(HookFault::Call(fault)) => Err(fault),
    }
}
