//! The server: calls, and opening and closing.
ghost use Rattle.std.specs.Prelude.{◌≡◌, ◌<◌, ◌≤◌, ⊤, [], IfOk, IfErr, Ok, length};
ghost use mathlib.Core.List.{IsPrefix};
ghost use Rattle.cap_core.specs.declared.command.Command.TheVariants.{Commit};
ghost use Rattle.cap_history.specs.History.{longer};
ghost use Rattle.cap_history.specs.Seat.{HasCalled, SeesMore, newcomers};
ghost use Rattle.cap_locked.specs.Fault.{HasCause, LeavesSeat, MatchHookFault};
ghost use Rattle.cap_locked.specs.Hook.{CanAsk, HasLeft, HasRefused};
ghost use Rattle.cap_server.specs.Close.{ClosesOvertaken, FirstHasSeen, HasAll, IsClosed, IsMissing};
ghost use Rattle.cap_server.specs.Close.{MatchCloseFault};
ghost use Rattle.cap_server.specs.Commit.{CommitsAt};

use crate::{CloseFault, Closed, Front, Locked, Naming, Seat, named};
use cap_core::{Command, CommitHook, Reply};
use cap_history::Opened;
use cap_locked::{CallFault, HookFault};
use cap_txn::Batch;
use cap_value::{AllocHandle, OutOfMemory};
use std::hint::spin_loop;
use std::sync::{Mutex, MutexGuard, Wait};

// How often a call tries the lock before it sleeps. It pauses twice as long after each try.
const LOCK_TRIES: u32 = 11;

/// A server that threads share by reference. Each calls through its own seat.
#[derive(Drop)]
pub struct Server<J: Naming, A: AllocHandle> {
    front: Front<J, A>,
    locked: Mutex<Locked<J, A>>,
}

impl<J: Naming, A: AllocHandle> Server<J, A> {
    /// Opens an empty server with this number of seats, 1 to 64, numbered from 0.
    pub fn open(
        opened: Opened<A>,
        alloc: A,
        seats: u64,
    ) -> Result<(Self, Vec<Seat<J, A>, A>), OutOfMemory>
        requires history { opened.seen.book ≡ J.book }
        requires seats { seats ≡ J.seats }
        requires some { (1 ≤ seats) × (seats ≤ 64) }
        ensures { IfOk result (λ r. r.1.items ≡ newcomers seats) }
    {
        let (front, list, made) = named::<J, A>(opened, alloc, seats)?;
        let locked = Mutex::new(Locked::open(alloc, list, seats)?);
        Ok((Server { front, locked }, made))
    }

    /// Carries out a seat's command. It takes the server's lock. A refusal that is known without memory is
    /// the reply also where memory is out.
    pub fn call<R: Wait>(
        &self,
        rt: &R,
        seat: &mut Seat<J, A>,
        command: &Command<A>,
    ) -> Result<Reply<A>, CallFault>
        ensures called { IfOk result (λ reply. HasCalled seat.old seat.new command.now reply) }
        ensures refused { IfErr result (λ fault. LeavesSeat fault seat.old seat.new) }
        ensures cause { IfErr result (λ fault. HasCause fault seat.old command.now) }
    {
        self.lock(rt).step(&self.front, seat, command)
    }

    /// Commits a batch. One that a transaction made is accepted exactly where nothing that the transaction
    /// looked at has changed since it began. Then its calls, made whole at their place in the history, are
    /// answered as they were. A batch whose base is a number alone is accepted on that version only, one
    /// without a base on any, unless an operation is refused.
    pub fn commit<R: Wait>(
        &self,
        rt: &R,
        seat: &mut Seat<J, A>,
        batch: Batch<A>,
    ) -> Result<Reply<A>, CallFault>
        ensures called { IfOk result (λ reply. HasCalled seat.old seat.new (Commit batch) reply) }
        ensures judged { IfOk result (CommitsAt seat.new.seen batch) }
        ensures refused { IfErr result (λ fault. LeavesSeat fault seat.old seat.new) }
        ensures cause { IfErr result (λ fault. HasCause fault seat.old (Commit batch)) }
    {
        cap_core::laws::legal_histories_grow::<A>();
        cap_core::laws::legal_histories_were_legal::<A>();
        cap_core::laws::fitting_histories_grow::<A>();
        cap_core::laws::rows_are_under_own_keys::<A>();
        cap_core::laws::transactions_commit_if_unchanged::<A>();
        batch.sound_reads_law();
        self.call(rt, seat, &Command::Commit(batch))
    }

    /// A call with a commit hook, which is asked about the reply before the call is an event: where it
    /// refuses, it is none. Where it allows the reply, the call may still be overtaken. It is asked while the
    /// server is locked.
    pub fn call_with_hook<R: Wait, C: CommitHook<A>>(
        &self,
        rt: &R,
        seat: &mut Seat<J, A>,
        command: &Command<A>,
        hook: &mut C,
    ) -> Result<Reply<A>, HookFault<C::Refusal, CallFault>>
        requires can_ask { CanAsk C.can_ask hook.old command.now }
        ensures called { IfOk result (λ reply. HasCalled seat.old seat.new command.now reply) }
        ensures allowed { IfOk result (λ reply. C.gives hook.old reply (Ok tt) hook.new) }
        ensures refused { IfErr result (λ fault. MatchHookFault fault (λ why. seat.new ≡ seat.old)
            (λ fault. LeavesSeat fault seat.old seat.new)) }
        ensures hook { IfErr result (λ fault. MatchHookFault fault
            (λ why. HasRefused C.gives command.now why hook.old hook.new)
            (λ fault. HasLeft C.gives command.now fault hook.old hook.new)) }
        ensures cause { IfErr result (λ fault. MatchHookFault fault (λ why. ⊤)
            (λ fault. HasCause fault seat.old command.now)) }
    {
        self.lock(rt)
            .step_with_hook(&self.front, seat, command, hook)
    }

    // Takes the lock. A short wait is spent awake: to sleep and to be woken takes longer than many commits.
    // The pauses grow, so that a thread with more to commit commits some of it before the state moves to
    // another processor.
    fn lock<R: Wait>(&self, rt: &R) -> MutexGuard<'_, Locked<J, A>> {
        for doublings in 0..LOCK_TRIES {
            if let Some(locked) = self.locked.try_lock() {
                return locked;
            }
            for _pause in 0..1u32 << doublings {
                spin_loop();
            }
        }
        self.locked.lock(rt)
    }

    /// Lets the seat see the whole history, and gives the number of its events. It takes no lock.
    pub fn front(&self, seat: &mut Seat<J, A>) -> u64
        ensures seen { SeesMore seat.old seat.new }
        ensures front { result ≡ length seat.new.seen }
    {
        self.front.look(seat)
    }

    /// Lets the second seat see what the first has seen. It takes no lock.
    pub fn meet(&self, first: &Seat<J, A>, second: &mut Seat<J, A>)
        ensures seen { SeesMore second.old second.new }
        ensures both { second.new.seen ≡ longer second.old.seen first.now.seen }
        ensures first { IsPrefix first.now.seen second.new.seen }
    {
        self.front.meet(first, second);
    }

    /// Takes all seats back, and gives the sequential server after the history of all calls. It takes no
    /// lock.
    pub fn close(
        self,
        seats: Vec<Seat<J, A>, A>,
    ) -> Result<Closed<A>, (Self, Vec<Seat<J, A>, A>, CloseFault)>
        ensures closed { IfOk result (λ closed. IsClosed seats.items closed.events closed.core
            × HasAll seats.items J.seats) }
        ensures refused { IfErr result (λ r. MatchCloseFault r.2
            (λ number. (r.1.items ≡ seats.items) × (number < J.seats) × IsMissing seats.items number
            × HasAll seats.items number)
            (λ front. HasAll seats.items J.seats × FirstHasSeen seats.items r.1.items [] front)) }
        ensures overtaken { IfErr result (λ r. MatchCloseFault r.2 (λ number. ⊤)
            (ClosesOvertaken seats.items r.1.items)) }
    {
        let Server { front, locked } = self;
        match locked.into_inner().close(&front, seats) {
            Ok(closed) => Ok(closed),
            Err((locked, seats, fault)) => {
                let locked = Mutex::new(locked);
                Err((Server { front, locked }, seats, fault))
            }
        }
    }
}
