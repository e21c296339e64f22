//! The commands on sessions. Each computes its reply and reserves all memory, asks the commit hook, and then
//! changes the session in place.
ghost use Rattle.std.specs.Prelude.{◌≡◌, ◌+◌, ◌∷◌, ◌++◌, [], IfOk, IsTrue};
ghost use Rattle.cap_core.specs.Answer.{capture_reply, change_reply, diffed, new_session_reply};
ghost use Rattle.cap_core.specs.Answer.{session_answer, session_reply};
ghost use Rattle.cap_core.specs.CanCapture.{is_own_session};
ghost use Rattle.cap_core.specs.Code.Sound.{are_own_differences};
ghost use Rattle.cap_core.specs.Code.CommandOutcome.{Reports, changed_session};
ghost use Rattle.cap_core.specs.Diff.{diff};
ghost use Rattle.cap_core.specs.Past.{HasRoom};
ghost use Rattle.cap_core.specs.Transition.{after_new_session, after_session, compared, one_more};
ghost use Rattle.cap_core.specs.Transition.{session_left, with_sessions};
ghost use Rattle.cap_session.specs.Recording.{record_diff};
ghost use Rattle.cap_session.specs.Session.{attached, changed_by, new_session};
ghost use Rattle.cap_session.specs.Sessions.{session_numbered, without_session};
ghost use Rattle.cap_database.specs.Tables.{schema_of};

use crate::commit_hook::{ReplyHook, ask};
use crate::diff::differences;
use crate::{Capture, CommitHook, Core, Reply, SESSIONS_MAX, SessionCommand};
use cap_compare::Difference;
use cap_database::Database;
use cap_session::{Session, SessionChange};
use cap_value::{AllocHandle, Fault, Name, OutOfMemory, Refusal};

impl<A: AllocHandle> Core<A> {
    #[inline(never)]
    pub(crate) fn new_session<C: CommitHook<A>>(
        &mut self,
        hook: &mut C,
    ) -> Result<Reply<A>, Fault<C::Refusal>>
        requires room { HasRoom self.old.events }
        requires can_ask { C.can_ask hook.old (new_session_reply self.old) }
        ensures { Reports C.gives (new_session_reply self.old) (after_new_session self.old)
            self.old self.new hook.old hook.new result }
    {
        if self.sessions.len() >= SESSIONS_MAX {
            let why = Refusal::TooMany;
            return self.reply_only(Reply::Refused { at: None, why }, hook);
        }
        let number = self.sessions_made + 1;
        let reply = Reply::Session(number);
        let mut reply_hook = ReplyHook {
            reply: &reply,
            hook,
        };
        match self.sessions.add_hooked(number, &mut reply_hook) {
            Ok(()) => {
                self.sessions_made = number;
                self.events += 1;
                Ok(reply)
            }
            Err(fault) => Err(fault),
        }
    }

    // Carries out a command to the session with this number, if there is one.
    #[inline(never)]
    #[tactic(auto, using(crate::proofs::SoundLemmas::with_same))]
    pub(crate) fn session_command<C: CommitHook<A>>(
        &mut self,
        number: u64,
        command: &SessionCommand<A>,
        hook: &mut C,
    ) -> Result<Reply<A>, Fault<C::Refusal>>
        requires room { HasRoom self.old.events }
        requires can_ask { C.can_ask hook.old (session_answer
            (session_numbered self.old.sessions number) (session_reply self.old command.now)) }
        ensures { let session = session_numbered self.old.sessions number in
            Reports C.gives (session_answer session (session_reply self.old command.now))
            (after_session self.old number session
            (session_left self.old.main self.old.saved command.now))
            self.old self.new hook.old hook.new result }
    {
        let Some(session) = self.sessions.get(number) else {
            let why = Refusal::NoSession;
            return self.reply_only(Reply::Refused { at: None, why }, hook);
        };
        match command {
            SessionCommand::Delete => self.drop_session(number, hook),
            SessionCommand::Attach { table } => self.attach(number, table, hook),
            SessionCommand::Change(change) => {
                let reply = change_reply(change, self.version, session, &self.main)?;
                self.change_session(number, copy_of(change)?, reply, hook)
            }
            SessionCommand::IsEmpty => {
                let empty = session.is_empty();
                self.reply_only(Reply::Flag(empty), hook)
            }
            SessionCommand::Diff { from, table } => self.diff(number, from, table, hook),
            SessionCommand::Capture => {
                let reply = capture_reply(self.version, session, &self.main)?;
                self.reply_only(reply, hook)
            }
        }
    }

    // Ends the session with this number.
    #[tactic(auto, using(crate::proofs::SoundLemmas::without_session_stands))]
    fn drop_session<C: CommitHook<A>>(
        &mut self,
        number: u64,
        hook: &mut C,
    ) -> Result<Reply<A>, Fault<C::Refusal>>
        requires room { HasRoom self.old.events }
        requires can_ask { C.can_ask hook.old Reply.Done }
        ensures { Reports C.gives Reply.Done
            (with_sessions self.old (without_session self.old.sessions number))
            self.old self.new hook.old hook.new result }
    {
        let reply = Reply::Done;
        ask(hook, &reply)?;
        self.sessions.remove(number);
        self.events += 1;
        Ok(reply)
    }

    // Attaches a table to the session with this number.
    #[tactic(auto, using(crate::proofs::SoundLemmas::attached_stand))]
    fn attach<C: CommitHook<A>>(
        &mut self,
        number: u64,
        name: &Name<A>,
        hook: &mut C,
    ) -> Result<Reply<A>, Fault<C::Refusal>>
        requires room { HasRoom self.old.events }
        requires can_ask { C.can_ask hook.old Reply.Done }
        ensures { Reports C.gives Reply.Done (changed_session self.old number (attached name.now))
            self.old self.new hook.old hook.new result }
    {
        let delta = self.sessions.reserve_attach(number, name)?;
        let reply = Reply::Done;
        ask(hook, &reply)?;
        self.sessions.publish(delta);
        self.events += 1;
        Ok(reply)
    }

    // Records the differences of a table from a saved one in the session with this number.
    #[tactic(auto, using(crate::proofs::SoundLemmas::with_same))]
    fn diff<C: CommitHook<A>>(
        &mut self,
        number: u64,
        from: &Name<A>,
        name: &Name<A>,
        hook: &mut C,
    ) -> Result<Reply<A>, Fault<C::Refusal>>
        requires room { HasRoom self.old.events }
        requires can_ask { C.can_ask hook.old
            (diffed (diff self.old.main self.old.saved from.now name.now)) }
        ensures { let found = diff self.old.main self.old.saved from.now name.now in
            Reports C.gives (diffed found) (changed_session self.old number (compared name.now found))
            self.old self.new hook.old hook.new result }
    {
        match differences(self.alloc, &self.main, &self.saved, from, name) {
            Ok(Some(found)) => self.record_found(number, name, &found, hook),
            Ok(None) => self.reply_only(Reply::Done, hook),
            Err(Fault::Refused(why)) => {
                let reply = Reply::Refused { at: None, why };
                self.reply_only(reply, hook)
            }
            Err(Fault::OutOfMemory) => Err(Fault::OutOfMemory),
        }
    }

    // Records what a diff found in the session with this number.
    #[tactic(auto, using(crate::proofs::SoundLemmas::diff_stands))]
    fn record_found<C: CommitHook<A>>(
        &mut self,
        number: u64,
        name: &Name<A>,
        found: &[Difference<A>],
        hook: &mut C,
    ) -> Result<Reply<A>, Fault<C::Refusal>>
        requires room { HasRoom self.old.events }
        requires sound { IsTrue (are_own_differences (schema_of self.old.main name.now) found.now) }
        requires can_ask { C.can_ask hook.old Reply.Done }
        ensures { Reports C.gives Reply.Done
            (changed_session self.old number (record_diff name.now found.now))
            self.old self.new hook.old hook.new result }
    {
        let delta = self.sessions.reserve_diff(number, name, found)?;
        let reply = Reply::Done;
        ask(hook, &reply)?;
        self.sessions.publish(delta);
        self.events += 1;
        Ok(reply)
    }

    // Changes the session with this number, and answers this.
    fn change_session<C: CommitHook<A>>(
        &mut self,
        number: u64,
        change: SessionChange<A>,
        reply: Reply<A>,
        hook: &mut C,
    ) -> Result<Reply<A>, Fault<C::Refusal>>
        requires room { HasRoom self.old.events }
        requires can_ask { C.can_ask hook.old reply }
        ensures { Reports C.gives reply (changed_session self.old number (changed_by change))
            self.old self.new hook.old hook.new result }
    {
        ask(hook, &reply)?;
        self.sessions.change(number, change);
        self.events += 1;
        Ok(reply)
    }
}

// A copy of a change.
fn copy_of<A: AllocHandle>(change: &SessionChange<A>) -> Result<SessionChange<A>, OutOfMemory>
    ensures { IfOk result (λ copy. copy ≡ change.now) }
{
    Ok(match change {
        SessionChange::AttachAll => SessionChange::AttachAll,
        SessionChange::SetFilter(filter) => SessionChange::SetFilter(filter.copy()?),
        SessionChange::Enable(enabled) => SessionChange::Enable(*enabled),
        SessionChange::Indirect(indirect) => SessionChange::Indirect(*indirect),
        SessionChange::Restart => SessionChange::Restart,
    })
}

// The reply to a change of a session.
fn change_reply<A: AllocHandle>(
    change: &SessionChange<A>,
    version: u64,
    session: &Session<A>,
    main: &Database<A>,
) -> Result<Reply<A>, OutOfMemory>
    requires { IsTrue (is_own_session main.now session.now) }
    ensures { IfOk result (λ reply. reply ≡ change_reply change.now version main.now session.now) }
{
    match change {
        SessionChange::Enable(asked) => Ok(Reply::Flag(asked.unwrap_or(session.is_enabled()))),
        SessionChange::Indirect(asked) => Ok(Reply::Flag(asked.unwrap_or(session.is_indirect()))),
        SessionChange::Restart => capture_reply(version, session, main),
        SessionChange::AttachAll | SessionChange::SetFilter(_) => Ok(Reply::Done),
    }
}

// What a session captures at a version, as a reply.
fn capture_reply<A: AllocHandle>(
    version: u64,
    session: &Session<A>,
    main: &Database<A>,
) -> Result<Reply<A>, OutOfMemory>
    requires { IsTrue (is_own_session main.now session.now) }
    ensures { IfOk result (λ reply. reply ≡ capture_reply version main.now session.now) }
{
    let capture = Capture::new(version, session.copy()?, main.snapshot()?);
    Ok(Reply::Capture(capture))
}
