//! Runs a workload on the server that threads share.
ghost use Rattle.std.specs.Prelude.{◌≡◌, ◌⊎◌, ◌+◌, ◌++◌, ◌∷◌, ◌<◌, ◌≤◌, ℕ, List, [], length, map, Err, IfOk};
ghost use Rattle.std.specs.Prelude.{IfSome, IfErr, IsErrAnd, IsUtf8, MatchResult, None, OnOk};
ghost use Rattle.std.specs.Prelude.{false, string_bytes, vec_capacity, vec_len};
ghost use Rattle.std.specs.List.{AllZip};
ghost use denote.Param.Send.{Frees};
ghost use Rattle.cap_history.specs.Seat.{SeatState};
ghost use Rattle.cap_run.specs.Code.Calls.{AreSeats, EachAt, Gathers, HasWorked, HaveCalled, HaveEnded};
ghost use Rattle.cap_run.specs.Code.Calls.{IsFaultOf, IsNext, IsWholeBlock, RunsLines, unclosed_outcome};
ghost use Rattle.cap_run.specs.Code.Calls.{work};
ghost use Rattle.cap_run.specs.Threads.{IsThreadCount};
ghost use Rattle.cap_run.specs.Run.{IsSpelled, Known};
ghost use Rattle.cap_run.specs.Reads.{EndsReads};
ghost use Rattle.cap_run.specs.RunFault.{IsNoWorkload, IsOfText, IsUnread, exit_status, is_read, is_script};
ghost use Rattle.cap_run.specs.Workload.{WritesWorkload};
ghost use Rattle.cap_run.specs.Writes.{EndsWrites};
ghost use Rattle.cap_script.specs.FirstRefused.{SpellsWithin};
ghost use Rattle.cap_replies.specs.Lines.{SpellsRun};
ghost use Rattle.cap_replies.specs.declared.run_line.RunLine.{RunLine};

use crate::block::run_block;
use crate::meeting::{each_meets_first, first_meets_each};
use crate::output::{write_ending, write_long, write_pending};
use crate::run::{parse_lines, read_text, run_outcome};
use crate::worker::{Shared, Worker, call_line, seat_of};
use crate::{Gate, Pace, RunFault};
use cap_history::Opened;
use cap_locked::{CallFault, SEATS_MAX};
use cap_replies::{ReplyForm, RunLine, RunLines};
use cap_server::{Naming, Seat, Server};
use cap_stream::{Sink, Source};
use cap_value::{AllocHandle, OutOfMemory};
use std::marker::Brand;
use std::sync::Wait;
use std::thread::Threads;

/// Runs the workload from the reader on a new server, and writes the reply to each line, in the order of the
/// lines.
///
/// A line without `@` is called from seat 0, on this thread. Adjacent lines `@K` are a block. Line `@K`
/// belongs to worker K mod `threads`. Each worker calls its lines in order, on its own thread and from its
/// own seat, worker 0 from seat 1, so calls of different workers may overlap. The block ends when all workers
/// have ended.
///
/// With `Pace::Free` no worker waits for another one. With `Pace::InTurn` the lines of a block are called one
/// after the other; what is promised is the same.
///
/// The whole text is parsed before anything runs. After a call without a reply its worker calls no further
/// line. At the end of the block, or at once for seat 0, the replies to the lines before the first line
/// without a reply are written, then the fault of that line, and the run ends. A worker whose thread cannot
/// be started calls nothing: its first line is out of memory. In the end the server is closed with all seats;
/// a failure to close is reported where there is no other fault.
///
/// `threads` is 1 to `THREADS_MAX`. Any thread may free a block of memory. `gate` is called around each
/// worker's calls; `NoGate` does nothing.
pub fn run_workload<
    A: AllocHandle + Send + Sync,
    T: Threads + Wait + Sync,
    G: Gate,
    R: Source,
    W: Sink,
>(
    rt: &T,
    alloc: A,
    gate: &G,
    threads: u64,
    pace: Pace,
    form: ReplyForm,
    reader: &mut R,
    writer: &mut W,
) -> Result<(), RunFault>
    requires threads { IsThreadCount threads }
    requires frees { Frees A.Allocator A.dealloc_token }
    // Exactly the input that is not UTF-8 is refused as such, where it is known what the reader gives.
    ensures not_utf8 { IfSome (R.remaining reader.old) (λ given. ¬ (IsUtf8 given)
        → IsErrAnd result (λ fault. (fault ≡ RunFault.NotUtf8) ⊎ IsUnread fault)) }
    ensures only_not_utf8 { IfSome (R.remaining reader.old) (λ given.
        result ≡ Err RunFault.NotUtf8 → ¬ (IsUtf8 given)) }

    // A text that is refused is refused at its first line that spells no command within the limits, and no
    // text that spells lines within the limits is. Every other text is, but for a failed read and out of
    // memory.
    ensures refused { IfSome (R.remaining reader.old)
        (λ given. IfErr result (λ fault. IsOfText A fault given)) }
    ensures accepted { IfSome (R.remaining reader.old) (λ given. SpellsWithin A given
        → IfErr result (λ fault. is_script fault ≡ false)) }
    ensures no_lines { IfSome (R.remaining reader.old) (λ given. ¬ (SpellsWithin A given)
        → IsErrAnd result IsNoWorkload) }

    // When a failed read is reported, as far as the outcomes of the reads are known.
    ensures read_reported { EndsReads R.gave R.failed result reader.old reader.new }

    // When a failed write is reported, as far as the outcomes of the writes are known.
    ensures write_reported { EndsWrites W.went W.failed result writer.old writer.new }

    // Nothing is written where the input is refused.
    ensures silent { IfErr result (λ fault. exit_status fault ≡ 1 → writer.new ≡ writer.old) }

    // The output is the replies in the order of the lines that the input spells. They are the replies of one
    // legal history that has each line's call once, each seat's in the order of its lines, and no other call.
    // The calls of a block stand there behind those of all lines before it, and before those of all behind
    // it. Where the run ends at a fault, it is the first replies, and each seat's calls are a prefix of its
    // calls in such a history; where that fault is `Close`, it is all replies. The history has at least as
    // many events as the fault reports: 2^63 - 1 where it is full.
    ensures written { WritesWorkload A form threads (R.remaining reader.old) result
        (W.contents writer.old) (W.contents writer.new) }
{
    let text = read_text(alloc, reader)?;
    let mut lines = parse_lines(alloc, form, text.as_str())?;
    let opened = Opened::new();
    serve_lines::<Brand, A, T, G, W>(
        rt, alloc, gate, threads, pace, form, opened, &mut lines, writer,
    )
}

// Runs the lines on a new server, and writes their replies.
fn serve_lines<
    J: Naming + Send + Sync,
    A: AllocHandle + Send + Sync,
    T: Threads + Wait + Sync,
    G: Gate,
    W: Sink,
>(
    rt: &T,
    alloc: A,
    gate: &G,
    threads: u64,
    pace: Pace,
    form: ReplyForm,
    opened: Opened<A>,
    lines: &mut RunLines<'_, A>,
    writer: &mut W,
) -> Result<(), RunFault>
    requires threads { IsThreadCount threads }
    requires frees { Frees A.Allocator A.dealloc_token }
    requires history { opened.seen.book ≡ J.book }
    requires seats { threads + 1 ≡ J.seats }
    requires spelled { (spelled : List (RunLine A)) × SpellsRun spelled lines.old }
    ensures status { IfErr result (λ fault. exit_status fault ≡ 3) }
    ensures no_failed_read { IfErr result (λ fault. is_read fault ≡ false) }
    ensures write_reported { EndsWrites W.went W.failed result writer.old writer.new }
    ensures written { (input : Known) → (spelled : List (RunLine A)) → IsSpelled form input spelled
        → SpellsRun spelled lines.old
        → WritesWorkload A form threads input result (W.contents writer.old) (W.contents writer.new) }
{
    let Ok((server, seats)) = Server::<J, A>::open(opened, alloc, threads + 1) else {
        return Err(RunFault::OutOfMemory);
    };
    let Ok(mut back) = Vec::with_capacity(alloc, seats.len()) else {
        return Err(RunFault::OutOfMemory);
    };
    let Ok(workers) = workers_of(alloc, seats) else {
        return Err(RunFault::OutOfMemory);
    };
    let shared = Shared {
        rt,
        alloc,
        server: &server,
        gate,
        form,
        threads,
        is_in_turn: pace.is_in_turn(),
    };
    let (workers, outcome) = run_with_workers(&shared, lines, workers, writer);
    take_seats(workers, &mut back);
    let closed = server.close(back);
    match closed {
        Ok(_closed) => outcome,
        Err(_unclosed) => outcome_unclosed(outcome),
    }
}

// The outcome of a run whose server was not closed.
fn outcome_unclosed(outcome: Result<(), RunFault>) -> Result<(), RunFault>
    ensures same { result ≡ unclosed_outcome outcome }
    ensures status { IfErr outcome (λ fault. exit_status fault ≡ 3)
        → IfErr result (λ fault. exit_status fault ≡ 3) }
    ensures no_failed_read { IfErr outcome (λ fault. is_read fault ≡ false)
        → IfErr result (λ fault. is_read fault ≡ false) }
{
    match outcome {
        Ok(()) => Err(RunFault::Close),
        Err(fault) => Err(fault),
    }
}

// A worker for each seat.
fn workers_of<J: Naming, A: AllocHandle>(
    alloc: A,
    seats: Vec<Seat<J, A>, A>,
) -> Result<Vec<Worker<J, A>, A>, OutOfMemory>
    ensures seats { IfOk result (λ workers. map (λ w. w.seat) workers.items ≡ seats.items) }
{
    let mut workers = Vec::with_capacity(alloc, seats.len())?;
    for seat in seats {
        workers.push(Worker {
            seat,
            given: 0,
            texts: Vec::new(alloc),
            ended: Ok(()),
        })?;
    }
    Ok(workers)
}

// Takes the seats from the workers.
fn take_seats<J: Naming, A: AllocHandle>(
    workers: Vec<Worker<J, A>, A>,
    seats: &mut Vec<Seat<J, A>, A>,
)
    requires room { vec_len seats.old + vec_len workers ≤ vec_capacity seats.old }
    ensures seats { seats.new.items ≡ seats.old.items ++ map (λ w. w.seat) workers.items }
{
    for worker in workers {
        let Worker {
            seat,
            given: _,
            texts: _,
            ended: _,
        } = worker;
        seats.push_reserved(seat);
    }
}

// Runs the lines, and writes their replies and the fault at which they ended.
fn run_with_workers<
    J: Naming + Send + Sync,
    A: AllocHandle + Send + Sync,
    T: Threads + Wait + Sync,
    G: Gate,
    W: Sink,
>(
    shared: &Shared<'_, J, A, T, G>,
    lines: &mut RunLines<'_, A>,
    workers: Vec<Worker<J, A>, A>,
    writer: &mut W,
) -> (Vec<Worker<J, A>, A>, Result<(), RunFault>)
    requires threads { IsThreadCount shared.now.threads }
    requires frees { Frees A.Allocator A.dealloc_token }
    requires seats { AreSeats shared.now.threads (map (λ w. w.seat) workers.items) }
    requires spelled { (spelled : List (RunLine A)) × SpellsRun spelled lines.old }
    ensures status { IfErr result.1 (λ fault. exit_status fault ≡ 3) }
    ensures no_failed_read { IfErr result.1 (λ fault. is_read fault ≡ false) }
    ensures write_reported { EndsWrites W.went W.failed result.1 writer.old writer.new }
    ensures len { vec_len result.0 ≡ vec_len workers }
    ensures runs { (spelled : List (RunLine A)) → SpellsRun spelled lines.old
        → RunsLines shared.now.form shared.now.threads spelled result.1
        (map (λ w. w.seat) workers.items) (map (λ w. w.seat) result.0.items)
        (W.contents writer.old) (W.contents writer.new) }
{
    let mut pending = String::new(shared.alloc);
    let (workers, outcome) = answer_all(shared, lines, workers, writer, &mut pending);
    let outcome = match outcome {
        Ok(outcome) => write_rest(shared.form, writer, &mut pending, outcome),
        Err(fault) => Err(fault),
    };
    (workers, outcome)
}

// Writes the pending output, and the fault at which the lines ended.
fn write_rest<A: AllocHandle, W: Sink>(
    form: ReplyForm,
    writer: &mut W,
    pending: &mut String<A>,
    outcome: Result<(), CallFault>,
) -> Result<(), RunFault>
    ensures status { IfErr result (λ fault. exit_status fault ≡ 3) }
    ensures no_failed_read { IfErr result (λ fault. is_read fault ≡ false) }
    ensures write_reported { EndsWrites W.went W.failed result writer.old writer.new }
    ensures runs { (threads : ℕ) → (lines : List (RunLine A)) → (a : List (SeatState A))
        → (b : List (SeatState A)) → (known : Known)
        → HaveEnded threads lines outcome (string_bytes pending.old) a b known (W.contents writer.old)
        → RunsLines form threads lines result a b known (W.contents writer.new) }
{
    write_pending(writer, pending)?;
    write_ending(form, outcome, writer)?;
    run_outcome(outcome)
}

// Calls the lines, and writes the replies except the last ones, which are left in `pending`. The inner fault
// is that of the first line without a reply.
fn answer_all<
    J: Naming + Send + Sync,
    A: AllocHandle + Send + Sync,
    T: Threads + Wait + Sync,
    G: Gate,
    W: Sink,
>(
    shared: &Shared<'_, J, A, T, G>,
    lines: &mut RunLines<'_, A>,
    workers: Vec<Worker<J, A>, A>,
    writer: &mut W,
    pending: &mut String<A>,
) -> (
    Vec<Worker<J, A>, A>,
    Result<Result<(), CallFault>, RunFault>,
)
    requires threads { IsThreadCount shared.now.threads }
    requires frees { Frees A.Allocator A.dealloc_token }
    requires seats { AreSeats shared.now.threads (map (λ w. w.seat) workers.items) }
    requires none { string_bytes pending.old ≡ [] }
    requires spelled { (spelled : List (RunLine A)) × SpellsRun spelled lines.old }
    ensures len { vec_len result.0 ≡ vec_len workers }
    ensures status { IfErr result.1 (λ fault. fault ≡ RunFault.Write) }
    ensures write_reported { EndsWrites W.went W.failed result.1 writer.old writer.new }
    ensures called { (spelled : List (RunLine A)) → SpellsRun spelled lines.old → MatchResult result.1
        (λ ended. HaveEnded shared.now.threads spelled ended (string_bytes pending.new)
        (map (λ w. w.seat) workers.items)
        (map (λ w. w.seat) result.0.items) (W.contents writer.old) (W.contents writer.new))
        (λ fault. RunsLines shared.now.form shared.now.threads spelled (Err RunFault.Write) (map (λ w. w.seat) workers.items)
        (map (λ w. w.seat) result.0.items) (W.contents writer.old) (W.contents writer.new)) }
{
    let mut workers = workers;
    loop {
        let line = match lines.next_line() {
            Ok(Some(line)) => line,
            Ok(None) => return (workers, Ok(Ok(()))),
            Err(_) => return (workers, Ok(Err(CallFault::OutOfMemory))),
        };
        let (called, outcome) = answer_next(shared, line, lines, workers, pending);
        workers = called;
        if let Err(fault) = outcome {
            return (workers, Ok(Err(fault)));
        }
        if let Err(fault) = write_long(writer, pending) {
            return (workers, Err(fault));
        }
    }
}

// Calls a line, and where it has `@` the rest of its block. The texts of the replies are appended to
// `pending`.
fn answer_next<
    J: Naming + Send + Sync,
    A: AllocHandle + Send + Sync,
    T: Threads + Wait + Sync,
    G: Gate,
>(
    shared: &Shared<'_, J, A, T, G>,
    line: RunLine<A>,
    lines: &mut RunLines<'_, A>,
    workers: Vec<Worker<J, A>, A>,
    pending: &mut String<A>,
) -> (Vec<Worker<J, A>, A>, Result<(), CallFault>)
    requires threads { IsThreadCount shared.now.threads }
    requires frees { Frees A.Allocator A.dealloc_token }
    requires seats { AreSeats shared.now.threads (map (λ w. w.seat) workers.items) }
    requires spelled { (spelled : List (RunLine A)) × SpellsRun spelled lines.old }
    ensures seats { AreSeats shared.now.threads (map (λ w. w.seat) result.0.items) }
    ensures len { vec_len result.0 ≡ vec_len workers }
    ensures left { OnOk result.1 (length lines.new.text ≤ length lines.old.text) }
    ensures called { (rest : List (RunLine A)) → SpellsRun rest lines.old
        → IsNext shared.now.threads line rest result.1 lines.new
        (string_bytes pending.old) (string_bytes pending.new)
        (map (λ w. w.seat) workers.items) (map (λ w. w.seat) result.0.items) }
{
    if line.line.worker.is_some() {
        let Ok(block) = block_from(shared.alloc, line, lines) else {
            return (workers, Err(CallFault::OutOfMemory));
        };
        return answer_block(shared, block.as_slice(), workers, pending);
    }
    let mut workers = workers;
    let outcome = answer_alone(shared, &line, &mut workers, pending);
    (workers, outcome)
}

// Calls the lines of a block. The texts of the replies are appended to `pending`. The seats meet before and
// after it, so each of its calls stands in the history behind all earlier calls, and before all later ones.
fn answer_block<
    J: Naming + Send + Sync,
    A: AllocHandle + Send + Sync,
    T: Threads + Wait + Sync,
    G: Gate,
>(
    shared: &Shared<'_, J, A, T, G>,
    block: &[RunLine<A>],
    workers: Vec<Worker<J, A>, A>,
    pending: &mut String<A>,
) -> (Vec<Worker<J, A>, A>, Result<(), CallFault>)
    requires threads { IsThreadCount shared.now.threads }
    requires frees { Frees A.Allocator A.dealloc_token }
    requires seats { AreSeats shared.now.threads (map (λ w. w.seat) workers.items) }
    requires at { EachAt block.now }
    ensures seats { AreSeats shared.now.threads (map (λ w. w.seat) result.0.items) }
    ensures len { vec_len result.0 ≡ vec_len workers }
    ensures called { (text : List ℕ) × (string_bytes pending.new ≡ string_bytes pending.old ++ text)
        × HaveCalled shared.now.threads block.now result.1 text (map (λ w. w.seat) workers.items)
        (map (λ w. w.seat) result.0.items) }
{
    let mut workers = workers;
    each_meets_first(&mut workers);
    let mut workers = run_block(shared, block, workers);
    let outcome = gather(shared.threads, block, workers.as_slice(), pending);
    first_meets_each(&mut workers);
    (workers, outcome)
}

// The block of a line with `@`: it and the lines after it, up to the next without `@`.
fn block_from<A: AllocHandle>(
    alloc: A,
    first: RunLine<A>,
    lines: &mut RunLines<'_, A>,
) -> Result<Vec<RunLine<A>, A>, OutOfMemory>
    requires spelled { (spelled : List (RunLine A)) × SpellsRun spelled lines.old }
    ensures left { IfOk result (λ block. length lines.new.text ≤ length lines.old.text) }
    ensures block { (rest : List (RunLine A)) → SpellsRun rest lines.old
        → IfOk result (λ block. IsWholeBlock first rest block.items lines.new) }
{
    let mut block = Vec::new(alloc);
    block.push(first)?;
    while lines.begins_at() {
        let Some(line) = lines.next_line()? else {
            return Ok(block);
        };
        block.push(line)?;
    }
    Ok(block)
}

// Calls a line without `@` from seat 0. The text of the reply is appended to `pending`.
fn answer_alone<J: Naming, A: AllocHandle, T: Wait, G: Gate>(
    shared: &Shared<'_, J, A, T, G>,
    line: &RunLine<A>,
    workers: &mut Vec<Worker<J, A>, A>,
    pending: &mut String<A>,
) -> Result<(), CallFault>
    requires seats { AreSeats shared.now.threads (map (λ w. w.seat) workers.old.items) }
    requires alone { line.now.line.worker ≡ None }
    ensures len { vec_len workers.new ≡ vec_len workers.old }
    ensures called { (text : List ℕ) × (string_bytes pending.new ≡ string_bytes pending.old ++ text)
        × HaveCalled shared.now.threads (line.now ∷ []) result text (map (λ w. w.seat) workers.old.items)
        (map (λ w. w.seat) workers.new.items) }
{
    let first = &mut workers[0];
    call_line(
        shared.rt,
        shared.alloc,
        shared.server,
        &mut first.seat,
        line,
        pending,
    )
}

// Appends the texts of the replies to a block's lines to `pending`, in the order of the lines, up to the
// first line without a reply. Each worker has called its lines of the block.
fn gather<J: Naming, A: AllocHandle>(
    threads: u64,
    block: &[RunLine<A>],
    workers: &[Worker<J, A>],
    pending: &mut String<A>,
) -> Result<(), CallFault>
    requires threads { IsThreadCount threads }
    requires worked { (seats : List (SeatState A)) × AreSeats threads seats
        × AllZip (HasWorked threads block.now) seats
        (map (λ w. work w.seat (map string_bytes w.texts.items) w.ended) workers.now) }
    ensures gathered { (text : List ℕ) × (string_bytes pending.new ≡ string_bytes pending.old ++ text)
        × Gathers threads block.now (map (λ w. map string_bytes w.texts.items) workers.now) result text }
    ensures fault { IsFaultOf
        (map (λ w. work w.seat (map string_bytes w.texts.items) w.ended) workers.now) result }
{
    // The number of texts taken from each seat's worker.
    let mut taken = [0usize; SEATS_MAX as usize];
    for line in block {
        let seat = seat_of(threads, line.line.worker) as usize;
        let worker = &workers[seat];
        let Some(text) = worker.texts.get(taken[seat]) else {
            // The worker has ended at a fault before this line.
            return worker.ended;
        };
        taken[seat] = taken[seat].saturating_add(1);
        if let Err(_) = pending.push_str(text.as_str()) {
            return Err(CallFault::OutOfMemory);
        }
    }
    Ok(())
}
