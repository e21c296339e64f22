//! Runs the lines of a block, each worker's on its own thread.
ghost use Rattle.std.specs.Prelude.{◌≡◌, ◌++◌, ◌∷◌, ◌+◌, ◌<◌, ◌≤◌, [], Err, IfErr, IfOk, length, map};
ghost use Rattle.std.specs.Prelude.{string_bytes, vec_capacity, vec_len};
ghost use Rattle.std.specs.List.{AllZip};
ghost use denote.Param.Send.{Frees, IsSend, IsSync};
ghost use Rattle.cap_run.specs.Code.Calls.{HasWorked, seat_lines, work};
ghost use Rattle.cap_run.specs.Threads.{IsThreadCount};

use crate::Gate;
use crate::worker::{Shared, Worker, answer_lines, is_given, let_all_go_on};
use cap_locked::CallFault;
use cap_replies::RunLine;
use cap_server::Naming;
use cap_value::AllocHandle;
use std::snapshot::Snapshot;
use std::sync::Wait;
use std::sync::atomic::{AtomicU64, Ordering};
use std::thread::{self, Promise, PromisedHandle, Scope, Threads};

// What the threads of a block share.
#[derive(Drop)]
struct BlockState {
    // The number of its lines that were called.
    called: AtomicU64,
    // The seat whose worker has no thread, or 0.
    without_thread: AtomicU64,
}

// The task of a worker's thread.
#[derive(Drop)]
struct Task<'b, J: Naming, A: AllocHandle, T: Wait, G: Gate> {
    shared: &'b Shared<'b, J, A, T, G>,
    state: &'b BlockState,
    block: &'b [RunLine<A>],
    worker: Worker<J, A>,
}

// The promise of a worker's thread: the worker that it returns has called its lines of the block.
#[derive(Drop)]
struct Called<'b, J: Naming, A: AllocHandle> {
    threads: u64,
    block: &'b [RunLine<A>],
    worker: Snapshot<Worker<J, A>>,
}

impl<'b, J: Naming, A: AllocHandle> Promise<Worker<J, A>> for Called<'b, J, A> {
    ghost use Rattle.std.specs.Prelude.{map, string_bytes};
    ghost use Rattle.cap_run.specs.Code.Calls.{HasWorked, work};

    ghost kept_by = { λ called worker. HasWorked called.threads called.block.now called.worker.value.seat
        (work worker.seat (map string_bytes worker.texts.items) worker.ended) };
}

// Lets the worker call its lines of the block. Without a thread its first line is out of memory.
fn carry_out<J: Naming, A: AllocHandle, T: Wait, G: Gate>(
    task: Task<'_, J, A, T, G>,
) -> Worker<J, A>
    requires threads { IsThreadCount task.shared.now.threads }
    requires given { 0 < length (seat_lines task.shared.now.threads task.worker.seat.number task.block.now) }
    ensures worked { HasWorked task.entry.shared.now.threads task.entry.block.now task.entry.worker.seat
        (work result.seat (map string_bytes result.texts.items) result.ended) }
{
    let Task {
        shared,
        state,
        block,
        mut worker,
    } = task;
    if state.without_thread.load(Ordering::SeqCst) == worker.seat.number() {
        let_all_go_on(&state.called, Err(CallFault::OutOfMemory));
        return ended(worker, Err(CallFault::OutOfMemory));
    }
    worker.texts.clear();
    worker.ended = answer_lines(shared, &state.called, block, &mut worker);
    let_all_go_on(&state.called, worker.ended);
    worker
}

// Lets each worker call its lines of a block on its own thread, and returns when all have ended.
pub(crate) fn run_block<
    J: Naming + Send + Sync,
    A: AllocHandle + Send + Sync,
    T: Threads + Wait + Sync,
    G: Gate,
>(
    shared: &Shared<'_, J, A, T, G>,
    block: &[RunLine<A>],
    workers: Vec<Worker<J, A>, A>,
) -> Vec<Worker<J, A>, A>
    requires frees { Frees A.Allocator A.dealloc_token }
    requires threads { IsThreadCount shared.now.threads }
    ensures worked { AllZip (HasWorked shared.now.threads block.now) (map (λ w. w.seat) workers.items)
        (map (λ w. work w.seat (map string_bytes w.texts.items) w.ended) result.items) }
{
    let block_state = BlockState {
        called: AtomicU64::new(0),
        without_thread: AtomicU64::new(0),
    };
    let state = &block_state;
    thread::scope(
        thread::scope_env(),
        shared.rt,
        |scope| -> Vec<Worker<J, A>, A>
            requires { IsSend J.row × IsSync J.row × IsSend A.row × IsSync A.row × IsSync T.row × IsSync G.row
                × Frees A.Allocator A.dealloc_token
                × IsThreadCount shared.now.threads }
            ensures { AllZip (HasWorked shared.entry.now.threads block.entry.now)
                (map (λ w. w.seat) workers.items)
                (map (λ w. work w.seat (map string_bytes w.texts.items) w.ended) result.items) }
        {
            let mut workers = workers;
            run_workers(scope, shared, state, block, &mut workers);
            workers
        },
    )
}

// Starts the thread of the last worker, then those of the others, and joins it when these have ended. There
// is room for each returned worker, since it was taken from there.
fn run_workers<
    's,
    'e: 's,
    J: Naming + Send + Sync,
    A: AllocHandle + Send + Sync,
    T: Threads + Wait + Sync,
    G: Gate,
>(
    scope: &Scope<'s, &'e ()>,
    shared: &'e Shared<'e, J, A, T, G>,
    state: &'e BlockState,
    block: &'e [RunLine<A>],
    workers: &mut Vec<Worker<J, A>, A>,
)
    requires frees { Frees A.Allocator A.dealloc_token }
    requires threads { IsThreadCount shared.now.threads }
    ensures worked { AllZip (HasWorked shared.now.threads block.now) (map (λ w. w.seat) workers.old.items)
        (map (λ w. work w.seat (map string_bytes w.texts.items) w.ended) workers.new.items) }
    ensures same { vec_len workers.new ≡ vec_len workers.old }
    ensures room { vec_capacity workers.old ≤ vec_capacity workers.new }
{
    let Some(worker) = workers.pop() else {
        return;
    };
    if !is_given(shared.threads, worker.seat.number(), block) {
        run_workers(scope, shared, state, block, workers);
        workers.push_reserved(ended(worker, Ok(())));
        return;
    }
    let task = Task {
        shared,
        state,
        block,
        worker,
    };
    match start(scope, task) {
        Ok(handle) => {
            run_workers(scope, shared, state, block, workers);
            workers.push_reserved(handle.join(shared.rt));
        }
        Err(worker) => {
            run_workers(scope, shared, state, block, workers);
            workers.push_reserved(worker);
        }
    }
}

// Starts a worker's thread. Where it cannot be started the worker is returned, with its first line out of
// memory.
fn start<
    's,
    'e: 's,
    J: Naming + Send + Sync,
    A: AllocHandle + Send + Sync,
    T: Threads + Wait + Sync,
    G: Gate,
>(
    scope: &Scope<'s, &'e ()>,
    task: Task<'e, J, A, T, G>,
) -> Result<PromisedHandle<Worker<J, A>, Called<'e, J, A>>, Worker<J, A>>
    requires frees { Frees A.Allocator A.dealloc_token }
    requires threads { IsThreadCount task.shared.now.threads }
    requires given { 0 < length (seat_lines task.shared.now.threads task.worker.seat.number task.block.now) }
    ensures threads { IfOk result (λ handle. handle.promise.threads ≡ task.entry.shared.now.threads) }
    ensures block { IfOk result (λ handle. handle.promise.block.now ≡ task.entry.block.now) }
    ensures worker { IfOk result (λ handle. handle.promise.worker.value.seat ≡ task.entry.worker.seat) }
    ensures here { IfErr result (λ worker. HasWorked task.entry.shared.now.threads task.entry.block.now
        task.entry.worker.seat (work worker.seat (map string_bytes worker.texts.items) worker.ended)) }
    ensures memory { IfErr result (λ worker. (worker.texts.items ≡ [])
        × (worker.ended ≡ Err CallFault.OutOfMemory)) }
{
    let called = Called {
        threads: task.shared.threads,
        block: task.block,
        worker: Snapshot::of(&task.worker),
    };
    let state = task.state;
    let number = task.worker.seat.number();
    let work = move || -> Worker<J, A>
        requires { IsSend J.row × IsSync J.row × IsSend A.row × IsSync A.row × IsSync T.row × IsSync G.row
            × Frees A.Allocator A.dealloc_token
            × IsThreadCount task.shared.now.threads
            × (0 < length (seat_lines task.shared.now.threads task.worker.seat.number task.block.now)) }
        ensures { HasWorked task.entry.shared.now.threads task.entry.block.now task.entry.worker.seat
            (work result.seat (map string_bytes result.texts.items) result.ended) }
    { carry_out(task) };
    match scope.spawn_with(called, work) {
        Ok(handle) => Ok(handle),
        Err(unstarted) => {
            state.without_thread.store(number, Ordering::SeqCst);
            let worker = (unstarted.value)();
            Err(ended(worker, Err(CallFault::OutOfMemory)))
        }
    }
}

// A worker that calls no line of a block: it has none, or no thread.
fn ended<J: Naming, A: AllocHandle>(
    worker: Worker<J, A>,
    outcome: Result<(), CallFault>,
) -> Worker<J, A>
    ensures seat { result.seat ≡ worker.seat }
    ensures texts { result.texts.items ≡ [] }
    ensures ended { result.ended ≡ outcome }
{
    let mut worker = worker;
    worker.texts.clear();
    worker.ended = outcome;
    worker
}
