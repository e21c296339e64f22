//! The clients of one history.
ghost use Rattle.std.specs.Prelude.{◌≡◌, ⊤, IfErr, IfOk, Ok, length};
ghost use mathlib.Core.List.{IsPrefix};
ghost use Rattle.cap_history.specs.History.{IsHistory, longer};
ghost use Rattle.cap_history.specs.Seat.{HasCalled, IsAnswered, SeesMore, calls, newcomer};
ghost use Rattle.cap_hub.specs.Code.Held.{IsSeatOf};
ghost use Rattle.cap_hub.specs.Fault.{MatchHubFault};
ghost use Rattle.cap_locked.specs.Hook.{CanAsk, HasLeft, HasRefused};
ghost use Rattle.cap_locked.specs.Fault.{HasCause, LeavesSeat, MatchHookFault};

use crate::held::Held;
use crate::hub::Hub;
use crate::{HubFault, JoinFault};
use cap_core::{Command, CommitHook, Reply};
use cap_history::{Opened, Seat};
use cap_locked::HookFault;
use cap_value::OutOfMemory;
use std::alloc::Global;
use std::marker::Model;
use std::sync::Arc;

/// One of up to 64 clients of one history. Contracts see it as its seat, with the book that says which
/// history it is. Clients of one history may be on different threads, each on one at a time. No call waits:
/// while one client's call has the state, those of others answer that it is busy.
#[derive(Drop)]
pub struct Client {
    hub: Arc<Hub, Global>,
    seat: Seat<Global>,
}

impl Model for Client {
    ghost use Rattle.std.specs.Arc.{arc_value};
    ghost use Rattle.std.specs.Coded.{codes};
    ghost use Rattle.std.specs.Global.{Global};
    ghost use Rattle.cap_filter.specs.Rule.{coded_rule};
    ghost use Rattle.cap_history.specs.Seen.{Seated};
    ghost use Rattle.cap_hub.specs.Code.Held.{IsSeatOf};

    ghost Value = { Seated Global };

    ghost coded = { Prim.hlevel (codes, coded_rule) };

    ghost view = { λ c. c.seat };

    ghost invariant = { λ c. IsSeatOf (arc_value c.hub) c.seat };
}

impl Client {
    /// Opens an empty history, and gives its first client.
    pub fn open(alloc: Global) -> Result<Self, OutOfMemory>
        ensures { IfOk result (λ client. client.state ≡ newcomer 0) }
    {
        let (front, seen) = Opened::new().parts();
        let seat = Seat::new(0, &seen);
        let held = Held::open(alloc, seen)?;
        let hub = Arc::new(alloc, Hub::new(front, held))?;
        Ok(Client { hub, seat })
    }

    /// A further client of the history. It has the seat with the least number that no client has, with what
    /// its earlier clients have called and seen, and has then seen what this client has. While each of 64
    /// seats is a client's it is refused.
    pub fn join(&self) -> Result<Self, JoinFault>
        ensures history { IfOk result (λ client. client.book ≡ self.now.book) }
        ensures seen { IfOk result (λ client. IsPrefix self.now.state.seen client.state.seen) }
    {
        let Some(mut held) = self.hub.take() else {
            return Err(JoinFault::Busy);
        };
        let joined = self.join_at(&mut held);
        self.hub.put(held);
        joined
    }

    // A client with a free seat.
    fn join_at(&self, held: &mut Held) -> Result<Self, JoinFault>
        requires this { held.old ≡ self.now.book }
        ensures this { held.new ≡ held.old }
        ensures history { IfOk result (λ client. client.book ≡ self.now.book) }
        ensures seen { IfOk result (λ client. IsPrefix self.now.state.seen client.state.seen) }
    {
        let Some(mut seat) = held.take_seat() else {
            return Err(JoinFault::TooMany);
        };
        match Arc::try_clone(&self.hub) {
            Ok(hub) => {
                seat.meet(&self.seat);
                Ok(Client { hub, seat })
            }
            Err(_) => {
                held.put_seat(seat);
                Err(JoinFault::OutOfMemory)
            }
        }
    }

    /// Gives the client's seat back, with its number, its calls and what it has seen. While another call has
    /// the state the client is handed back.
    pub fn close(self) -> Result<(), Self>
        ensures { IfErr result (λ client. client ≡ self) }
    {
        let Some(mut held) = self.hub.take() else {
            return Err(self);
        };
        let Client { hub, seat } = self;
        held.put_seat(seat);
        hub.put(held);
        Ok(())
    }

    /// Carries out a command. A refusal that is known without memory is the reply also where memory is out.
    pub fn call(&mut self, command: &Command<Global>) -> Result<Reply<Global>, HubFault>
        ensures history { self.new.book ≡ self.old.book }
        ensures called { IfOk result (λ reply.
            HasCalled self.old.state self.new.state command.now reply) }
        ensures refused { IfErr result (λ fault. MatchHubFault fault (self.new ≡ self.old)
            (λ fault. LeavesSeat fault self.old.state self.new.state)) }
        ensures cause { IfErr result (λ fault. MatchHubFault fault ⊤
            (λ fault. HasCause fault self.old.state command.now)) }
    {
        let Some(mut held) = self.hub.take() else {
            return Err(HubFault::Busy);
        };
        let answer = held.step(self.hub.front(), &mut self.seat, command);
        self.hub.put(held);
        match answer {
            Ok(reply) => Ok(reply),
            Err(fault) => Err(HubFault::Call(fault)),
        }
    }

    /// The same with a commit hook, which is asked about the reply before the call is an event: where it
    /// refuses, it is none. Where it allows the reply, the call may still be overtaken. The calls of other
    /// clients are busy while the hook is asked.
    pub fn call_with_hook<C: CommitHook<Global>>(
        &mut self,
        command: &Command<Global>,
        hook: &mut C,
    ) -> Result<Reply<Global>, HookFault<C::Refusal, HubFault>>
        requires can_ask { CanAsk C.can_ask hook.old command.now }
        ensures history { self.new.book ≡ self.old.book }
        ensures called { IfOk result (λ reply.
            HasCalled self.old.state self.new.state command.now reply) }
        ensures allowed { IfOk result (λ reply. C.gives hook.old reply (Ok tt) hook.new) }
        ensures refused { IfErr result (λ fault. MatchHookFault fault (λ why. self.new ≡ self.old)
            (λ fault. MatchHubFault fault (self.new ≡ self.old)
            (λ fault. LeavesSeat fault self.old.state self.new.state))) }
        ensures hook { IfErr result (λ fault. MatchHookFault fault
            (λ why. HasRefused C.gives command.now why hook.old hook.new)
            (λ fault. MatchHubFault fault (hook.new ≡ hook.old)
            (λ fault. HasLeft C.gives command.now fault hook.old hook.new))) }
        ensures cause { IfErr result (λ fault. MatchHookFault fault (λ why. ⊤)
            (λ fault. MatchHubFault fault ⊤ (λ fault. HasCause fault self.old.state command.now))) }
    {
        let Some(mut held) = self.hub.take() else {
            return Err(HookFault::Call(HubFault::Busy));
        };
        let answer = held.step_with_hook(self.hub.front(), &mut self.seat, command, hook);
        self.hub.put(held);
        match answer {
            Ok(reply) => Ok(reply),
            Err(HookFault::Refused(why)) => Err(HookFault::Refused(why)),
            Err(HookFault::Call(fault)) => Err(HookFault::Call(HubFault::Call(fault))),
        }
    }

    /// Sees the whole history, and gives the number of its events. It looks at the word, and does without the
    /// state.
    pub fn front(&mut self) -> u64
        ensures history { self.new.book ≡ self.old.book }
        ensures seen { SeesMore self.old.state self.new.state }
        ensures front { result ≡ length self.new.state.seen }
    {
        self.hub.front().look(&mut self.seat)
    }

    /// Sees what another client of the history has seen. It does without the word and the state.
    pub fn meet(&mut self, other: &Client)
        requires history { other.now.book ≡ self.old.book }
        ensures history { self.new.book ≡ self.old.book }
        ensures seen { SeesMore self.old.state self.new.state }
        ensures both { self.new.state.seen ≡ longer self.old.state.seen other.now.state.seen }
        ensures other { IsPrefix other.now.state.seen self.new.state.seen }
    {
        self.seat.meet(&other.seat);
    }

    /// The number of its seat, from 0.
    pub fn number(&self) -> u64
        ensures { result ≡ self.now.state.number }
    {
        self.seat.number()
    }

    /// The number of events that it has seen.
    pub fn seen(&self) -> u64
        ensures length { result ≡ length self.now.state.seen }
        ensures history { IsHistory self.now.state.seen }
    {
        self.seat.seen()
    }

    /// The number of its seat's calls.
    pub fn calls(&self) -> u64
        ensures calls { result ≡ length (calls self.now.state) }
        ensures seen { IsPrefix self.now.state.answered self.now.state.seen }
        ensures answered { IsAnswered self.now.state.number self.now.state.answered }
    {
        self.seat.calls()
    }
}
