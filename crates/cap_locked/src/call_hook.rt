//! The commit hook of a step: it appends the event to the history by a compare-and-swap of the front word.
ghost use Rattle.std.specs.Prelude.{◌≡◌, ◌≢◌, ◌<◌, ◌⊎◌, [], ◌∷◌, ◌++◌, length, IfOk, IfErr, OnOk, OnErr};
ghost use Rattle.std.specs.Prelude.{Ok, Err};
ghost use Rattle.cap_core.specs.Answer.{event_by, reply_of, state};
ghost use Rattle.cap_core.specs.Past.{HasRoom};
ghost use Rattle.cap_core.specs.RefusedFirst.{RepliesFirst, refused_first};
ghost use Rattle.cap_history.specs.History.{own};
ghost use Rattle.cap_history.specs.Seat.{HasCalled, SeesMore, calls};
ghost use Rattle.cap_locked.specs.Fault.{MatchHookFault};
ghost use Rattle.cap_value.specs.Memory.{MatchFault};

use crate::HookFault;
use cap_core::{Command, CommitHook, Core, Reply};
use cap_history::{Front, List, Overtaken, Seat};
use cap_value::{AllocHandle, Fault};

// A seat's call of a command, to be appended to the list if the caller's hook allows the reply.
#[derive(Drop)]
pub(crate) struct CallHook<'f, 's, 'l, 'c, 'h, A: AllocHandle, C: CommitHook<A>> {
    pub(crate) front: &'f Front<A>,
    pub(crate) seat: &'s mut Seat<A>,
    pub(crate) list: &'l List<A>,
    pub(crate) command: &'c Command<A>,
    // The number of the seat's events in the list.
    pub(crate) count: u64,
    pub(crate) hook: &'h mut C,
}

impl<'f, 's, 'l, 'c, 'h, A: AllocHandle, C: CommitHook<A>> CommitHook<A>
    for CallHook<'f, 's, 'l, 'c, 'h, A, C> {
    type Refusal = HookFault<C::Refusal, Overtaken>;

    ghost use Rattle.std.specs.Prelude.{◌≡◌, ◌≢◌, ◌<◌, ◌⊎◌, [], ◌∷◌, ◌++◌, length, MatchResult, Ok, Err};
    ghost use Rattle.cap_core.specs.Answer.{event_by, reply_of};
    ghost use Rattle.cap_core.specs.Past.{HasRoom};
    ghost use Rattle.cap_history.specs.History.{own};
    ghost use Rattle.cap_history.specs.Seat.{HasCalled, SeesMore, calls};
    ghost use Rattle.cap_locked.specs.Fault.{MatchHookFault};

    ghost can_ask = { λ x reply. (HasRoom (length x.list.now.log))
        × (reply ≡ reply_of x.list.now.log x.command.now)
        × (x.count ≡ length (own x.seat.now.state.number x.list.now.log))
        × (x.seat.now.book ≡ x.front.now) × (x.list.now.book ≡ x.front.now)
        × C.can_ask x.hook.now reply };

    ghost gives = { λ old reply answer new. (new.seat.ghost_name ≡ old.seat.ghost_name)
        × (new.hook.ghost_name ≡ old.hook.ghost_name) × (new.seat.now.book ≡ old.seat.now.book)
        × MatchResult answer
        (λ _. HasCalled old.seat.now.state new.seat.now.state old.command.now reply
        × (new.seat.now.state.seen
        ≡ old.list.now.log ++ event_by old.seat.now.state.number old.command.now reply ∷ [])
        × C.gives old.hook.now reply (Ok tt) new.hook.now)
        (λ refusal. MatchHookFault refusal
        (λ why. (new.seat.now ≡ old.seat.now) × C.gives old.hook.now reply (Err why) new.hook.now)
        (λ overtaken. SeesMore old.seat.now.state new.seat.now.state
        × (length new.seat.now.state.seen ≡ overtaken.front)
        × ((length old.list.now.log < overtaken.front) ⊎ (old.count ≢ length (calls old.seat.now.state)))
        × ((new.hook.now ≡ old.hook.now) ⊎ C.gives old.hook.now reply (Ok tt) new.hook.now))) };

    fn before_commit(&mut self, reply: &Reply<A>) -> Result<(), HookFault<C::Refusal, Overtaken>> {
        if self.seat.calls() != self.count {
            let front = self.front.look(self.seat);
            return Err(HookFault::Call(Overtaken { front }));
        }
        if let Err(why) = self.hook.before_commit(reply) {
            return Err(HookFault::Refused(why));
        }
        match self.front.append(self.seat, self.list, self.command, reply) {
            Ok(()) => Ok(()),
            Err(overtaken) => Err(HookFault::Call(overtaken)),
        }
    }
}

// Carries out a seat's command on the core after a list, if the hook allows the reply and the front word can
// be exchanged.
pub(crate) fn step_and_exchange<A: AllocHandle, C: CommitHook<A>>(
    core: &mut Core<A>,
    list: &List<A>,
    count: u64,
    front: &Front<A>,
    seat: &mut Seat<A>,
    command: &Command<A>,
    hook: &mut C,
) -> Result<Reply<A>, Fault<HookFault<C::Refusal, Overtaken>>>
    requires core { core.old ≡ state list.now.log }
    requires room { HasRoom (length list.now.log) }
    requires count { count ≡ length (own seat.old.state.number list.now.log) }
    requires this { seat.old.book ≡ front.now }
    requires that { list.now.book ≡ front.now }
    requires can_ask { C.can_ask hook.old (reply_of list.now.log command.now) }
    ensures history { seat.new.book ≡ seat.old.book }
    ensures reply { IfOk result (λ reply. reply ≡ reply_of list.now.log command.now) }
    ensures called { IfOk result (λ reply. HasCalled seat.old.state seat.new.state command.now reply) }
    ensures added { IfOk result (λ reply. seat.new.state.seen
        ≡ list.now.log ++ event_by seat.old.state.number command.now reply ∷ []) }
    ensures allowed { OnOk result (C.gives hook.old (reply_of list.now.log command.now) (Ok tt) hook.new) }
    ensures state { OnOk result (core.new ≡ state seat.new.state.seen) }
    ensures unchanged { OnErr result (core.new ≡ core.old) }
    ensures first { RepliesFirst (refused_first (state list.now.log) command.now) result }
    ensures refused { IfErr result (λ fault. MatchFault fault (seat.new ≡ seat.old)
        (λ refusal. MatchHookFault refusal (λ why. seat.new ≡ seat.old)
        (λ overtaken. SeesMore seat.old.state seat.new.state
        × (length seat.new.state.seen ≡ overtaken.front)
        × ((length list.now.log < overtaken.front)
        ⊎ (length (own seat.old.state.number list.now.log) ≢ length (calls seat.old.state)))))) }
    ensures hook { IfErr result (λ fault. MatchFault fault (hook.new ≡ hook.old)
        (λ refusal. MatchHookFault refusal
        (λ why. C.gives hook.old (reply_of list.now.log command.now) (Err why) hook.new)
        (λ overtaken. (hook.new ≡ hook.old)
        ⊎ C.gives hook.old (reply_of list.now.log command.now) (Ok tt) hook.new))) }
{
    cap_core::laws::legal_histories_grow::<A>();
    let _length = list.len();
    let mut hook = CallHook {
        front,
        seat,
        list,
        command,
        count,
        hook,
    };
    match core.step(command, &mut hook) {
        Ok(reply) => Ok(reply),
        Err(fault) => Err(fault),
    }
}
