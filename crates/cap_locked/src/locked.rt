//! The sequential server with its history.
ghost use Rattle.std.specs.Prelude.{◌≡◌, ◌≢◌, ◌+◌, ◌<◌, ◌^◌, ◌⊎◌, ⊤, [], ◌∷◌, ◌++◌, length, IfOk, IfErr};
ghost use Rattle.std.specs.Prelude.{OnOk, OnErr, Ok, Err};
ghost use Rattle.cap_core.specs.Answer.{event_by, reply_of, state};
ghost use Rattle.cap_history.specs.History.{IsHistory, own};
ghost use Rattle.cap_history.specs.Seat.{HasCalled, calls};
ghost use Rattle.cap_locked.specs.Counts.{IsCounted};
ghost use Rattle.cap_locked.specs.Fault.{HasCauseAfter, LeavesHook, LeavesSeat, MatchCallFault};
ghost use Rattle.cap_locked.specs.Fault.{MatchHookFault};
ghost use Rattle.cap_locked.specs.declared.fault.CallFault.TheVariants.{HistoryFull};
ghost use Rattle.cap_locked.specs.declared.fault.HookFault.TheVariants.{Call};

use crate::call_hook::step_and_exchange;
use crate::{CallFault, HookFault};
use cap_core::{Command, CommitHook, Core, EVENTS_MAX, NoHook, Reply};
use cap_history::{Front, List, Seat};
use cap_value::{AllocHandle, Fault, OutOfMemory};
use std::marker::Model;

/// What one call at a time has: the sequential server, its history, and the number of events of each seat.
/// Contracts see the history, its book, and the number of seats.
#[derive(Drop)]
pub struct Locked<A: AllocHandle> {
    core: Core<A>,
    list: List<A>,
    counts: Vec<u64, A>,
}

impl<A: AllocHandle> Model for Locked<A> {
    ghost use Rattle.std.specs.Prelude.{◌≡◌, length};
    ghost use Rattle.std.specs.Coded.{codes};
    ghost use Rattle.cap_filter.specs.Rule.{coded_rule};
    ghost use Rattle.cap_core.specs.Answer.{state};
    ghost use Rattle.cap_locked.specs.Counts.{IsCounted};
    ghost use Rattle.cap_locked.specs.Locked.{LockedState};

    ghost Value = { LockedState A };

    ghost coded = { Prim.hlevel (codes, coded_rule) };

    ghost view = { λ l. record { book = l.list.book; log = l.list.log; seats = length l.counts.items } };

    ghost invariant = { λ l. (l.core ≡ state l.list.log)
        × IsCounted (length l.counts.items) l.counts.items l.list.log };
}

impl<A: AllocHandle> Locked<A> {
    /// An empty sequential server with an empty list, and this number of seats.
    pub fn open(alloc: A, list: List<A>, seats: u64) -> Result<Self, OutOfMemory>
        requires list { list.log ≡ [] }
        requires some { 0 < seats }
        ensures history { IfOk result (λ locked. locked.book ≡ list.book) }
        ensures log { IfOk result (λ locked. locked.log ≡ []) }
        ensures seats { IfOk result (λ locked. locked.seats ≡ seats) }
    {
        let counts = vec![in alloc; 0u64; seats as usize]?;
        Ok(Locked {
            core: Core::new(alloc),
            list,
            counts,
        })
    }

    /// The history.
    pub fn list(&self) -> List<A>
        ensures history { result.book ≡ self.now.book }
        ensures log { result.log ≡ self.now.log }
    {
        self.list.again()
    }

    /// The number of events of the history.
    pub fn events(&self) -> u64
        ensures events { result ≡ length self.now.log }
        ensures history { IsHistory self.now.log }
    {
        self.list.len()
    }

    /// The number of seats.
    pub fn seats(&self) -> u64
        ensures { result ≡ self.now.seats }
    {
        self.counts.len() as u64
    }

    /// The number of events of each seat.
    pub fn counts(&self) -> &[u64]
        ensures long { length result.now ≡ self.now.seats }
        ensures counted { IsCounted self.now.seats result.now self.now.log }
    {
        self.counts.as_slice()
    }

    /// The sequential server after the history.
    pub fn into_core(self) -> Core<A>
        ensures { result ≡ state self.log }
    {
        let Locked {
            core,
            list: _,
            counts: _,
        } = self;
        core
    }

    /// Carries out a seat's command, if the front word can be exchanged. Where there is no reply, only what
    /// the seat has seen changes. Out of memory comes last: where the seat's calls are not those that are
    /// counted, or where the command is refused and that is known without memory, that is the answer.
    pub fn step(
        &mut self,
        front: &Front<A>,
        seat: &mut Seat<A>,
        command: &Command<A>,
    ) -> Result<Reply<A>, CallFault>
        requires this { self.old.book ≡ front.now }
        requires that { seat.old.book ≡ front.now }
        requires known { seat.old.state.number < self.old.seats }
        ensures history { (self.new.book ≡ self.old.book) × (seat.new.book ≡ seat.old.book) }
        ensures seats { self.new.seats ≡ self.old.seats }
        ensures number { seat.new.state.number ≡ seat.old.state.number }
        ensures called { IfOk result (λ reply. HasCalled seat.old.state seat.new.state command.now reply) }
        ensures reply { IfOk result (λ reply. reply ≡ reply_of self.old.log command.now) }
        ensures added { IfOk result (λ reply. self.new.log
            ≡ self.old.log ++ event_by seat.old.state.number command.now reply ∷ []) }
        ensures seen { OnOk result (seat.new.state.seen ≡ self.new.log) }
        ensures unchanged { OnErr result (self.new ≡ self.old) }
        ensures refused { IfErr result (λ fault. LeavesSeat fault seat.old.state seat.new.state) }
        ensures overtaken { IfErr result (λ fault. MatchCallFault fault ⊤
            (λ front. (length self.old.log < front)
            ⊎ (length (own seat.old.state.number self.old.log) ≢ length (calls seat.old.state))) ⊤) }
        ensures cause { IfErr result (λ fault.
            HasCauseAfter self.old.log fault seat.old.state command.now) }
        // S2 comes exactly where the history is full.
        ensures full { IfErr result (λ fault. MatchCallFault fault ⊤ (λ _. ⊤)
            (length self.old.log + 1 ≡ 2 ^ 63)) }
        ensures full_first { length self.old.log + 1 ≡ 2 ^ 63 → result ≡ Err HistoryFull }
    {
        match self.step_with_hook(front, seat, command, &mut NoHook) {
            Ok(reply) => Ok(reply),
            Err(HookFault::Call(fault)) => Err(fault),
            Err(HookFault::Refused(never)) => match never {},
        }
    }

    /// The same with a commit hook, which is asked about the reply before the word is exchanged: where it
    /// refuses there is no event. Where it allows the reply, the call may still be overtaken.
    pub fn step_with_hook<C: CommitHook<A>>(
        &mut self,
        front: &Front<A>,
        seat: &mut Seat<A>,
        command: &Command<A>,
        hook: &mut C,
    ) -> Result<Reply<A>, HookFault<C::Refusal, CallFault>>
        requires this { self.old.book ≡ front.now }
        requires that { seat.old.book ≡ front.now }
        requires known { seat.old.state.number < self.old.seats }
        requires can_ask { C.can_ask hook.old (reply_of self.old.log command.now) }
        ensures history { (self.new.book ≡ self.old.book) × (seat.new.book ≡ seat.old.book) }
        ensures seats { self.new.seats ≡ self.old.seats }
        ensures number { seat.new.state.number ≡ seat.old.state.number }
        ensures called { IfOk result (λ reply. HasCalled seat.old.state seat.new.state command.now reply) }
        ensures reply { IfOk result (λ reply. reply ≡ reply_of self.old.log command.now) }
        ensures allowed { OnOk result
            (C.gives hook.old (reply_of self.old.log command.now) (Ok tt) hook.new) }
        ensures added { IfOk result (λ reply. self.new.log
            ≡ self.old.log ++ event_by seat.old.state.number command.now reply ∷ []) }
        ensures seen { OnOk result (seat.new.state.seen ≡ self.new.log) }
        ensures unchanged { OnErr result (self.new ≡ self.old) }
        ensures refused { IfErr result (λ fault. MatchHookFault fault (λ why. seat.new ≡ seat.old)
            (λ fault. LeavesSeat fault seat.old.state seat.new.state)) }
        ensures hook { IfErr result (λ fault. MatchHookFault fault
            (λ why. C.gives hook.old (reply_of self.old.log command.now) (Err why) hook.new)
            (λ fault. LeavesHook C.gives (reply_of self.old.log command.now) fault hook.old hook.new)) }
        ensures cause { IfErr result (λ fault. MatchHookFault fault (λ why. ⊤)
            (λ fault. HasCauseAfter self.old.log fault seat.old.state command.now)) }
        ensures full_first { length self.old.log + 1 ≡ 2 ^ 63 → result ≡ Err (Call HistoryFull) }
    {
        if self.list.len() >= EVENTS_MAX {
            seat.see(&self.list);
            return Err(HookFault::Call(CallFault::HistoryFull));
        }
        let number = seat.number() as usize;
        let count = self.counts[number];
        seat.calls_are_in(&self.list);
        match step_and_exchange(
            &mut self.core,
            &self.list,
            count,
            front,
            seat,
            command,
            hook,
        ) {
            Ok(reply) => {
                self.list = seat.list();
                self.counts[number] = count + 1;
                Ok(reply)
            }
            Err(Fault::Refused(HookFault::Refused(why))) => Err(HookFault::Refused(why)),
            Err(Fault::Refused(HookFault::Call(overtaken))) => {
                let front = overtaken.front;
                Err(HookFault::Call(CallFault::Overtaken { front }))
            }
            Err(Fault::OutOfMemory) => {
                if seat.calls() != count {
                    let front = front.look(seat);
                    return Err(HookFault::Call(CallFault::Overtaken { front }));
                }
                Err(HookFault::Call(CallFault::OutOfMemory))
            }
        }
    }
}
