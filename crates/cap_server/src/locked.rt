//! The state under the lock of the server.
ghost use Rattle.std.specs.Prelude.{◌≡◌, ◌≢◌, ◌+◌, ◌<◌, ◌^◌, ◌⊎◌, ⊤, [], ◌∷◌, ◌++◌, length, IfOk, IfErr};
ghost use Rattle.std.specs.Prelude.{OnOk, OnErr, Ok, Err};
ghost use Rattle.cap_core.specs.Answer.{event_by, reply_of};
ghost use Rattle.cap_history.specs.History.{own};
ghost use Rattle.cap_history.specs.Seat.{HasCalled, calls};
ghost use Rattle.cap_locked.specs.Fault.{HasCause, HasCauseAfter, LeavesSeat, MatchCallFault};
ghost use Rattle.cap_locked.specs.Fault.{MatchHookFault};
ghost use Rattle.cap_locked.specs.Hook.{CanAsk, HasLeft, HasRefused};
ghost use Rattle.cap_locked.specs.declared.fault.CallFault.TheVariants.{HistoryFull};
ghost use Rattle.cap_server.specs.Close.{FirstHasSeen, HasAll, IsClosed, IsMissing, MatchCloseFault};
ghost use Rattle.cap_server.specs.Close.{WasOvertaken};

use crate::handed_back::{calls_agree, first_sees_all, missing_seat};
use crate::{CloseFault, Closed, Front, List, Naming, Seat};
use cap_core::{Command, CommitHook, Reply};
use cap_locked::{CallFault, HookFault};
use cap_value::{AllocHandle, OutOfMemory};
use std::marker::{Model, PhantomData};

/// The state under the lock: the sequential server, its history, and the number of events of each seat.
/// Contracts see the history.
#[derive(Drop)]
pub struct Locked<J: Naming, A: AllocHandle> {
    locked: cap_locked::Locked<A>,
    of: PhantomData<J>,
}

impl<J: Naming, A: AllocHandle> Model for Locked<J, A> {
    ghost use Rattle.std.specs.Prelude.{◌≡◌, List};
    ghost use Rattle.std.specs.Coded.{codes};
    ghost use Rattle.cap_filter.specs.Rule.{coded_rule};
    ghost use Rattle.cap_core.specs.declared.event.Event.{Event};

    ghost Value = { List (Event A) };

    ghost coded = { Prim.hlevel (codes, coded_rule) };

    ghost view = { λ l. l.locked.log };

    ghost invariant = { λ l. (l.locked.book ≡ J.book) × (l.locked.seats ≡ J.seats) };
}

impl<J: Naming, A: AllocHandle> Locked<J, A> {
    /// An empty sequential server, with an empty list.
    pub fn open(alloc: A, list: List<J, A>, seats: u64) -> Result<Self, OutOfMemory>
        requires list { list ≡ [] }
        requires seats { seats ≡ J.seats }
        requires some { 0 < seats }
        ensures { IfOk result (λ locked. locked ≡ []) }
    {
        let List { list, of: _ } = list;
        let locked = cap_locked::Locked::open(alloc, list, seats)?;
        Ok(Locked {
            locked,
            of: PhantomData,
        })
    }

    /// Carries out a seat's command, if the front word can be exchanged. Where there is no reply, only what
    /// the seat has seen changes. Out of memory comes last: where the seat's calls are not those that are
    /// counted, or where the command is refused and that is known without memory, that is the answer.
    pub fn step(
        &mut self,
        front: &Front<J, A>,
        seat: &mut Seat<J, A>,
        command: &Command<A>,
    ) -> Result<Reply<A>, CallFault>
        ensures called { IfOk result (λ reply. HasCalled seat.old seat.new command.now reply) }
        ensures reply { IfOk result (λ reply. reply ≡ reply_of self.old command.now) }
        ensures added { IfOk result (λ reply. self.new
            ≡ self.old ++ event_by seat.old.number command.now reply ∷ []) }
        ensures seen { OnOk result (seat.new.seen ≡ self.new) }
        ensures unchanged { OnErr result (self.new ≡ self.old) }
        ensures refused { IfErr result (λ fault. LeavesSeat fault seat.old seat.new) }
        ensures overtaken { IfErr result (λ fault. MatchCallFault fault ⊤
            (λ front. (length self.old < front)
            ⊎ (length (own seat.old.number self.old) ≢ length (calls seat.old))) ⊤) }
        ensures cause { IfErr result (λ fault. HasCauseAfter self.old fault seat.old command.now) }
        // S2 comes exactly where the history is full.
        ensures full { IfErr result (λ fault. MatchCallFault fault ⊤ (λ _. ⊤)
            (length self.old + 1 ≡ 2 ^ 63)) }
        ensures full_first { length self.old + 1 ≡ 2 ^ 63 → result ≡ Err HistoryFull }
    {
        self.locked.step(&front.front, &mut seat.seat, command)
    }

    /// The same with a commit hook, which is asked about the reply before the word is exchanged: where it
    /// refuses there is no event. Where it allows the reply, the call may still be overtaken.
    pub fn step_with_hook<C: CommitHook<A>>(
        &mut self,
        front: &Front<J, A>,
        seat: &mut Seat<J, A>,
        command: &Command<A>,
        hook: &mut C,
    ) -> Result<Reply<A>, HookFault<C::Refusal, CallFault>>
        requires can_ask { CanAsk C.can_ask hook.old command.now }
        ensures called { IfOk result (λ reply. HasCalled seat.old seat.new command.now reply) }
        ensures reply { IfOk result (λ reply. reply ≡ reply_of self.old command.now) }
        ensures allowed { IfOk result (λ reply. C.gives hook.old reply (Ok tt) hook.new) }
        ensures added { IfOk result (λ reply. self.new
            ≡ self.old ++ event_by seat.old.number command.now reply ∷ []) }
        ensures seen { OnOk result (seat.new.seen ≡ self.new) }
        ensures unchanged { OnErr result (self.new ≡ self.old) }
        ensures refused { IfErr result (λ fault. MatchHookFault fault (λ why. seat.new ≡ seat.old)
            (λ fault. LeavesSeat fault seat.old seat.new)) }
        ensures hook { IfErr result (λ fault. MatchHookFault fault
            (λ why. HasRefused C.gives command.now why hook.old hook.new)
            (λ fault. HasLeft C.gives command.now fault hook.old hook.new)) }
        ensures cause { IfErr result (λ fault. MatchHookFault fault (λ why. ⊤)
            (λ fault. HasCause fault seat.old command.now)) }
    {
        let _events = self.locked.events();
        self.locked
            .step_with_hook(&front.front, &mut seat.seat, command, hook)
    }

    // The history.
    fn list(&self) -> List<J, A>
        ensures { result ≡ self.now }
    {
        List {
            list: self.locked.list(),
            of: PhantomData,
        }
    }

    /// Takes all seats back, and gives the sequential server. Each number must be a seat's. The first seat
    /// then sees what any seat has seen and the whole history, which must be the one under the lock.
    pub fn close(
        self,
        front: &Front<J, A>,
        mut seats: Vec<Seat<J, A>, A>,
    ) -> Result<Closed<A>, (Self, Vec<Seat<J, A>, A>, CloseFault)>
        ensures closed { IfOk result (λ closed. IsClosed seats.items closed.events closed.core
            × HasAll seats.items J.seats) }
        ensures locked { IfErr result (λ r. r.0 ≡ self) }
        ensures refused { IfErr result (λ r. MatchCloseFault r.2
            (λ number. (r.1.items ≡ seats.items) × (number < J.seats) × IsMissing seats.items number
            × HasAll seats.items number)
            (λ front. HasAll seats.items J.seats × FirstHasSeen seats.items r.1.items self front)) }
        ensures overtaken { IfErr result (λ r. MatchCloseFault r.2 (λ number. ⊤)
            (WasOvertaken seats.items self)) }
    {
        let count = self.locked.seats();
        if let Some(number) = missing_seat(seats.as_slice(), count) {
            return Err((self, seats, CloseFault::MissingSeat { number }));
        }
        let agree = calls_agree(seats.as_slice(), self.locked.counts());
        let list = self.list();
        let events = first_sees_all(&mut seats, &list, front);
        if !agree {
            return Err((self, seats, CloseFault::Overtaken { front: events }));
        }
        if events > list.len() {
            return Err((self, seats, CloseFault::Overtaken { front: events }));
        }
        let Locked { locked, of: _ } = self;
        let core = locked.into_core();
        Ok(Closed { events, core })
    }
}
