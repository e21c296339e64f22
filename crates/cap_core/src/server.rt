//! The sequential server, `Core`. No module may be named `core`.
ghost use Rattle.std.specs.Prelude.{◌≡◌, ℕ, ◌<◌, ◌^◌, ◌≤◌, [], ◌∷◌, ◌++◌, List, Some, Ok, Err, IfOk, IfErr};
ghost use Rattle.std.specs.Prelude.{OnOk, OnErr, IsTrue, length};
ghost use Rattle.cap_core.specs.declared.event.Event.{Event};
ghost use Rattle.cap_core.specs.Answer.{State, state, reply_of, IsLegal, event_by, history_of, answer};
ghost use Rattle.cap_core.specs.Answer.{drop_reply, has_room_for, save_reply, snapshot_of};
ghost use Rattle.cap_tree.specs.Tree.{put_entry, take_entry};
ghost use Rattle.cap_value.specs.Bytes.{bytes_cmp};
ghost use Rattle.cap_value.specs.Memory.{MatchFault};
ghost use Rattle.cap_core.specs.Code.CommandOutcome.{Reports};
ghost use Rattle.cap_core.specs.Outcome.{Refused as Why};
ghost use Rattle.cap_core.specs.Past.{HasRoom};
ghost use Rattle.cap_core.specs.RefusedFirst.{RepliesFirst, refused_first};
ghost use Rattle.cap_core.specs.Table.{BlobsFit};
ghost use Rattle.cap_core.specs.Transition.{next, one_more, after_drop, after_save};

use crate::commit_hook::{ReplyHook, ask};
use crate::names::names_of;
use crate::{Command, CommitHook, Dump, NoHook, Reply, SAVED_MAX, SessionList, TableList};
use cap_database::{Database, Snapshot};
use cap_session::Sessions;
use cap_tree::Tree;
use cap_value::{AllocHandle, Fault, Name, OutOfMemory, Refusal};
use std::marker::Model;

/// The sequential server: the tables and their version, the saved databases, the live sessions, and the
/// number of commands answered so far.
#[derive(Drop)]
pub struct Core<A: AllocHandle> {
    pub(crate) alloc: A,
    pub(crate) events: u64,
    pub(crate) version: u64,
    pub(crate) main: Database<A>,
    pub(crate) saved: Tree<Name<A>, Database<A>, A>,
    pub(crate) sessions_made: u64,
    pub(crate) sessions: Sessions<A>,
}

impl<A: AllocHandle> Model for Core<A> {
    ghost use Rattle.std.specs.Prelude.{◌≤◌, IsTrue};
    ghost use Rattle.std.specs.Coded.{codes};
    ghost use Rattle.cap_filter.specs.Rule.{coded_rule};
    ghost use Rattle.cap_core.specs.Answer.{State};
    ghost use Rattle.cap_core.specs.Code.Sound.{are_own_sessions};

    ghost Value = { State A };

    ghost coded = { Prim.hlevel (codes, coded_rule) };

    ghost view = { λ c. record {
      events = c.events;
      main = c.main;
      version = c.version;
      saved = c.saved;
      sessions_made = c.sessions_made;
      sessions = c.sessions;
    } };

    ghost invariant = { λ c. (c.version ≤ c.events) × (c.sessions_made ≤ c.events)
        × IsTrue (are_own_sessions c.main c.sessions) };
}

impl<A: AllocHandle> Core<A> {
    /// An empty server.
    #[tactic(auto, unfolding(crate::specs::Answer::state))]
    pub fn new(alloc: A) -> Self
        ensures { result ≡ state [] }
    {
        Core {
            alloc,
            events: 0,
            version: 0,
            main: Database::empty(alloc),
            saved: Tree::empty(alloc),
            sessions_made: 0,
            sessions: Sessions::new(alloc),
        }
    }

    /// The number of commands answered so far.
    pub fn events(&self) -> u64
        ensures { result ≡ self.now.events }
    {
        self.events
    }

    /// Carries out a command if the commit hook allows it. The hook is asked at most once, after all memory
    /// is reserved. Where memory runs out, or the hook refuses, nothing changes. A refusal that is known
    /// without memory is the reply also where memory is out.
    #[tactic(auto, using(crate::proofs::LawLemmas::fits_push))]
    pub fn step<C: CommitHook<A>>(
        &mut self,
        command: &Command<A>,
        hook: &mut C,
    ) -> Result<Reply<A>, Fault<C::Refusal>>
        requires room { HasRoom self.old.events }
        requires can_ask { C.can_ask hook.old (answer self.old command.now) }
        ensures reply { IfOk result (λ reply. reply ≡ answer self.old command.now) }
        ensures state { OnOk result (self.new ≡ next self.old command.now) }
        ensures allowed { OnOk result (C.gives hook.old (answer self.old command.now) (Ok tt) hook.new) }
        ensures unchanged { OnErr result (self.new ≡ self.old) }
        ensures refused { IfErr result (λ fault. MatchFault fault (hook.new ≡ hook.old)
            (λ why. C.gives hook.old (answer self.old command.now) (Err why) hook.new)) }
        ensures first { RepliesFirst (refused_first self.old command.now) result }
        ensures fits { (h : List (Event A)) (by : ℕ) → BlobsFit h →
            IfOk result (λ reply. BlobsFit (h ++ event_by by command.now reply ∷ [])) }
    {
        command.blob_fits();
        match self.reply_to(command, hook) {
            Ok(reply) => Ok(reply),
            Err(fault) => Err(fault),
        }
    }

    /// The reply to a command, and a copy of the server after it. This server does not change.
    pub fn prepare(&self, command: &Command<A>) -> Result<(Core<A>, Reply<A>), OutOfMemory>
        requires room { HasRoom self.now.events }
        ensures history { (h : List (Event A)) (by : ℕ) → IsLegal h → state h ≡ self.now →
            IfOk result (λ r. (r.1 ≡ reply_of h command.now)
            × (r.0 ≡ state (h ++ event_by by command.now r.1 ∷ []))) }
        ensures legal { (h : List (Event A)) (by : ℕ) → IsLegal h → state h ≡ self.now →
            IfOk result (λ r. IsLegal (h ++ event_by by command.now r.1 ∷ [])) }
        ensures step { IfOk result (λ r. (r.0 ≡ next self.now command.now)
            × (r.1 ≡ answer self.now command.now)) }
        ensures fits { (h : List (Event A)) (by : ℕ) → BlobsFit h →
            IfOk result (λ r. BlobsFit (h ++ event_by by command.now r.1 ∷ [])) }
    {
        command.blob_fits();
        let mut core = self.copy()?;
        let reply = core.run_command(command)?;
        Ok((core, reply))
    }

    /// Runs commands in order on an empty server.
    pub fn run(
        alloc: A,
        commands: &[Command<A>],
    ) -> Result<(Core<A>, Vec<Reply<A>, A>), OutOfMemory>
        requires few { length commands.now < 2 ^ 63 }
        ensures whole { IfOk result (λ r. length r.1.items ≡ length commands.now) }
        ensures legal { IfOk result (λ r. IsLegal (history_of commands.now r.1.items)) }
        ensures state { IfOk result (λ r. r.0 ≡ state (history_of commands.now r.1.items)) }
        ensures fits { IfOk result (λ r. BlobsFit (history_of commands.now r.1.items)) }
    {
        let mut core = Core::new(alloc);
        let mut replies = Vec::with_capacity(alloc, commands.len())?;
        for command in commands {
            command.blob_fits();
            let reply = core.run_command(command)?;
            replies.push(reply)?;
        }
        Ok((core, replies))
    }

    // Carries out a command. Where memory runs out, a refusal that is known without memory is the reply.
    fn reply_to<C: CommitHook<A>>(
        &mut self,
        command: &Command<A>,
        hook: &mut C,
    ) -> Result<Reply<A>, Fault<C::Refusal>>
        requires room { HasRoom self.old.events }
        requires can_ask { C.can_ask hook.old (answer self.old command.now) }
        ensures outcome { Reports C.gives (answer self.old command.now) (next self.old command.now)
            self.old self.new hook.old hook.new result }
        ensures first { RepliesFirst (refused_first self.old command.now) result }
    {
        match self.carry_out(command, hook) {
            Ok(reply) => Ok(reply),
            Err(Fault::Refused(why)) => Err(Fault::Refused(why)),
            Err(Fault::OutOfMemory) => match self.refused_first(command) {
                Some((at, why)) => self.reply_only(Reply::Refused { at, why }, hook),
                None => Err(Fault::OutOfMemory),
            },
        }
    }

    // Dispatches a command to its function.
    fn carry_out<C: CommitHook<A>>(
        &mut self,
        command: &Command<A>,
        hook: &mut C,
    ) -> Result<Reply<A>, Fault<C::Refusal>>
        requires room { HasRoom self.old.events }
        requires can_ask { C.can_ask hook.old (answer self.old command.now) }
        ensures { Reports C.gives (answer self.old command.now) (next self.old command.now)
            self.old self.new hook.old hook.new result }
    {
        match command {
            Command::CreateTable { table, schema } => self.create_table(table, schema, hook),
            Command::Commit(batch) => self.commit(batch, hook),
            Command::Apply {
                blob,
                policy,
                quiet,
            } => self.apply(blob, *policy, quiet.numbers(), hook),
            Command::Tables => {
                let tables = TableList::of(self.alloc, &self.main)?;
                self.reply_only(Reply::Tables(tables), hook)
            }
            Command::Dump => self.dump(hook),
            Command::Read => self.read(hook),
            Command::SaveAs { database } => self.save_as(database, hook),
            Command::DropDatabase { database } => self.drop_database(database, hook),
            Command::Databases => {
                let names = names_of(self.alloc, &self.saved)?;
                self.reply_only(Reply::Databases(names), hook)
            }
            Command::Sessions => {
                let sessions = SessionList::of(self.alloc, &self.sessions)?;
                self.reply_only(Reply::Sessions(sessions), hook)
            }
            Command::NewSession => self.new_session(hook),
            Command::Session { session, command } => self.session_command(*session, command, hook),
        }
    }

    // Carries out a command without a hook.
    fn run_command(&mut self, command: &Command<A>) -> Result<Reply<A>, OutOfMemory>
        requires room { HasRoom self.old.events }
        ensures { IfOk result (λ reply. (self.new ≡ next self.old command.now)
            × (reply ≡ answer self.old command.now)) }
    {
        match self.step(command, &mut NoHook) {
            Ok(reply) => Ok(reply),
            Err(Fault::OutOfMemory) => Err(OutOfMemory),
            Err(Fault::Refused(never)) => match never {},
        }
    }

    // A copy, which shares nodes with this server.
    fn copy(&self) -> Result<Self, OutOfMemory>
        ensures { IfOk result (λ core. core ≡ self.now) }
    {
        Ok(Core {
            alloc: self.alloc,
            events: self.events,
            version: self.version,
            main: self.main.snapshot()?,
            saved: self.saved.snapshot()?,
            sessions_made: self.sessions_made,
            sessions: self.sessions.copy()?,
        })
    }

    #[inline(never)]
    fn read<C: CommitHook<A>>(&mut self, hook: &mut C) -> Result<Reply<A>, Fault<C::Refusal>>
        requires room { HasRoom self.old.events }
        requires can_ask { C.can_ask hook.old (Reply.Snapshot (snapshot_of self.old)) }
        ensures { Reports C.gives (Reply.Snapshot (snapshot_of self.old)) (one_more self.old)
            self.old self.new hook.old hook.new result }
    {
        let snapshot = Snapshot::new(self.version, self.main.snapshot()?);
        self.reply_only(Reply::Snapshot(snapshot), hook)
    }

    #[inline(never)]
    fn dump<C: CommitHook<A>>(&mut self, hook: &mut C) -> Result<Reply<A>, Fault<C::Refusal>>
        requires room { HasRoom self.old.events }
        requires can_ask { C.can_ask hook.old (Reply.Dump (snapshot_of self.old)) }
        ensures { Reports C.gives (Reply.Dump (snapshot_of self.old)) (one_more self.old)
            self.old self.new hook.old hook.new result }
    {
        let dump = Dump::new(Snapshot::new(self.version, self.main.snapshot()?));
        self.reply_only(Reply::Dump(dump), hook)
    }

    // Saves the tables under a name, and replaces what was saved under it.
    #[inline(never)]
    fn save_as<C: CommitHook<A>>(
        &mut self,
        name: &Name<A>,
        hook: &mut C,
    ) -> Result<Reply<A>, Fault<C::Refusal>>
        requires room { HasRoom self.old.events }
        requires can_ask { C.can_ask hook.old (save_reply self.old.saved name.now) }
        ensures { Reports C.gives (save_reply self.old.saved name.now) (after_save self.old name.now)
            self.old self.new hook.old hook.new result }
    {
        if !has_room_for(&self.saved, name) {
            let why = Refusal::TooMany;
            return self.reply_only(Reply::Refused { at: None, why }, hook);
        }
        let database = self.main.snapshot()?;
        let name = name.copy()?;
        let reply = Reply::Done;
        let mut reply_hook = ReplyHook {
            reply: &reply,
            hook,
        };
        match self.saved.insert_hooked(name, database, &mut reply_hook) {
            Ok(_replaced) => {
                self.events += 1;
                Ok(reply)
            }
            Err(fault) => Err(fault),
        }
    }

    // Drops the database that is saved under a name.
    #[inline(never)]
    fn drop_database<C: CommitHook<A>>(
        &mut self,
        name: &Name<A>,
        hook: &mut C,
    ) -> Result<Reply<A>, Fault<C::Refusal>>
        requires room { HasRoom self.old.events }
        requires can_ask { C.can_ask hook.old (drop_reply self.old.saved name.now) }
        ensures { Reports C.gives (drop_reply self.old.saved name.now) (after_drop self.old name.now)
            self.old self.new hook.old hook.new result }
    {
        if self.saved.get(name).is_none() {
            let why = Refusal::NoDatabase;
            return self.reply_only(Reply::Refused { at: None, why }, hook);
        }
        let reply = Reply::Done;
        let mut reply_hook = ReplyHook {
            reply: &reply,
            hook,
        };
        match self.saved.remove_hooked(name, &mut reply_hook) {
            Ok(_dropped) => {
                self.events += 1;
                Ok(reply)
            }
            Err(fault) => Err(fault),
        }
    }

    // Replies to a command that changes only the number of events. It takes no memory.
    pub(crate) fn reply_only<C: CommitHook<A>>(
        &mut self,
        reply: Reply<A>,
        hook: &mut C,
    ) -> Result<Reply<A>, Fault<C::Refusal>>
        requires room { HasRoom self.old.events }
        requires can_ask { C.can_ask hook.old reply }
        ensures outcome { Reports C.gives reply (one_more self.old)
            self.old self.new hook.old hook.new result }
        ensures first { (why : Why) → reply ≡ Reply.Refused why.0 why.1 → RepliesFirst (Some why) result }
    {
        ask(hook, &reply)?;
        self.events += 1;
        Ok(reply)
    }
}

// Whether a database can be saved under this name: the name is in use, or the limit is not reached.
pub(crate) fn has_room_for<A: AllocHandle>(
    saved: &Tree<Name<A>, Database<A>, A>,
    name: &Name<A>,
) -> bool
    ensures { result ≡ has_room_for saved.now name.now }
{
    saved.get(name).is_some() || saved.len() < SAVED_MAX
}
