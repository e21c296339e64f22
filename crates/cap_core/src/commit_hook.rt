//! The commit hook, which may refuse a command before it takes effect.
ghost use Rattle.std.specs.Prelude.{◌≡◌, ⊤, Result, Ok, IfErr, OnOk};
ghost use Rattle.cap_core.specs.declared.reply.Reply.{Reply};
ghost use Rattle.cap_value.specs.Memory.{MatchFault};

use crate::Reply;
use cap_database::{Change, WriteHook};
use cap_session::{Delta, Sessions};
use cap_tree::Hook;
use cap_value::{AllocHandle, Fault};

/// A commit hook (sqlite3_commit_hook): asked before a command takes effect, when its reply is computed and
/// all memory is reserved. Where it refuses, nothing changes. Unlike SQLite's it is asked about every
/// command, also one that only reads or is refused, since each is an event of the history.
pub trait CommitHook<A: AllocHandle> {
    /// Why it refuses.
    type Refusal: Drop;

    // Whether it may be asked about this reply.
    ghost can_ask: { Self → Reply A → Type 0 };

    // What it may answer to this reply, and its state after that.
    ghost gives: { Self → Reply A → Result Unit Self.Refusal → Self → Type 0 };

    /// Allows the command with this reply, or refuses it.
    fn before_commit(&mut self, reply: &Reply<A>) -> Result<(), Self::Refusal>
        requires { can_ask self.old reply.now }
        ensures { gives self.old reply.now result self.new };
}

/// No refusal.
#[derive(Drop)]
pub enum Never {}

/// The hook that allows every command.
#[derive(Drop)]
pub struct NoHook;

impl<A: AllocHandle> CommitHook<A> for NoHook {
    type Refusal = Never;

    ghost use Rattle.std.specs.Prelude.{IsOk};

    ghost can_ask = { λ hook reply. Unit {0} };

    ghost gives = { λ old reply answer new. IsOk answer };

    fn before_commit(&mut self, _reply: &Reply<A>) -> Result<(), Never> {
        Ok(())
    }
}

// Asks the hook about the reply, once.
pub(crate) fn ask<A: AllocHandle, C: CommitHook<A>>(
    hook: &mut C,
    reply: &Reply<A>,
) -> Result<(), Fault<C::Refusal>>
    requires { C.can_ask hook.old reply.now }
    ensures ok { OnOk result (C.gives hook.old reply.now (Ok tt) hook.new) }
    ensures err { IfErr result (λ fault. MatchFault fault (hook.new ≡ hook.old)
        (λ why. C.gives hook.old reply.now (Err why) hook.new)) }
    ensures refused { IfErr result (λ fault. MatchFault fault ⊥ (λ why. ⊤)) }
{
    match hook.before_commit(reply) {
        Ok(()) => Ok(()),
        Err(why) => Err(Fault::Refused(why)),
    }
}

// The commit hook as a tree or the sessions ask it, with the reply to the command.
#[derive(Drop)]
pub(crate) struct ReplyHook<'a, 'b, A: AllocHandle, C: CommitHook<A>> {
    pub(crate) reply: &'a Reply<A>,
    pub(crate) hook: &'b mut C,
}

impl<'a, 'b, V, A: AllocHandle, C: CommitHook<A>> Hook<V> for ReplyHook<'a, 'b, A, C> {
    type Refusal = C::Refusal;

    ghost use Rattle.std.specs.Prelude.{◌≡◌};

    ghost can_ask = { λ own present next. C.can_ask own.hook.now own.reply.now };

    ghost gives = { λ old present next answer new. (new.hook.ghost_name ≡ old.hook.ghost_name)
        × C.gives old.hook.now old.reply.now answer new.hook.now };

    fn before_change(&mut self, _present: Option<&V>, _next: Option<&V>) -> Result<(), C::Refusal> {
        self.hook.before_commit(self.reply)
    }
}

// The commit hook as the database asks it about the changes of operations: what they add to the sessions is
// reserved first.
#[derive(Drop)]
pub(crate) struct RecordingHook<'a, 'b, 'c, 'd, A: AllocHandle, C: CommitHook<A>> {
    pub(crate) sessions: &'a mut Sessions<A>,
    pub(crate) delta: &'d mut Option<Delta<A>>,
    pub(crate) reply: &'b Reply<A>,
    pub(crate) hook: &'c mut C,
}

impl<'a, 'b, 'c, 'd, A: AllocHandle, C: CommitHook<A>> WriteHook<A>
    for RecordingHook<'a, 'b, 'c, 'd, A, C> {
    type Refusal = C::Refusal;

    ghost use Rattle.std.specs.Prelude.{◌≡◌, []};
    ghost use Rattle.cap_session.specs.Sessions.{record_commit_each};
    ghost use Rattle.cap_core.specs.Code.CommandOutcome.{GivesRecorded};

    ghost can_ask = { λ own. C.can_ask own.hook.now own.reply.now };

    ghost gives = { λ old changes answer new. (new.hook.ghost_name ≡ old.hook.ghost_name)
        × (new.sessions.ghost_name ≡ old.sessions.ghost_name)
        × (new.delta.ghost_name ≡ old.delta.ghost_name) × (new.sessions.now ≡ old.sessions.now)
        × GivesRecorded C.gives old.reply.now old.sessions.now
        (record_commit_each changes [] old.sessions.now) new.delta.now old.hook.now new.hook.now answer };

    fn before_write(&mut self, changes: &[Change<A>]) -> Result<(), Fault<C::Refusal>> {
        let delta = self.sessions.reserve(changes, &[])?;
        ask(self.hook, self.reply)?;
        *self.delta = Some(delta);
        Ok(())
    }
}
