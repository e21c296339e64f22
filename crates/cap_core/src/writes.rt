//! The commands that write: a new table, a transaction, and a blob that is applied.
ghost use Rattle.std.specs.Prelude.{◌≡◌, ◌+◌, [], Ok};
ghost use Rattle.cap_database.specs.Carried.{CarryFirstRows};
ghost use Rattle.cap_database.specs.Operation.{run};
ghost use Rattle.cap_database.specs.Outcome.{OutcomeState};
ghost use Rattle.cap_database.specs.Tables.{create};
ghost use Rattle.cap_apply.specs.Apply.{apply};
ghost use Rattle.cap_core.specs.Answer.{application, snapshot_of, write_reply};
ghost use Rattle.cap_core.specs.Code.Sound.{KeepsColumns};
ghost use Rattle.cap_core.specs.Code.CommandOutcome.{RecordingWrites, RecordsWrite, Reports, ReportsWrite};
ghost use Rattle.cap_core.specs.Code.CommandOutcome.{ReservesWrite};
ghost use Rattle.cap_core.specs.Outcome.{applied, change_refused, commit_unless, created, made};
ghost use Rattle.cap_txn.specs.Stale.{stale};
ghost use Rattle.cap_core.specs.Past.{HasRoom};
ghost use Rattle.cap_core.specs.Transition.{written};
ghost use Rattle.cap_value.specs.Memory.{AnswersUnlessMemory};

use crate::commit_hook::{RecordingHook, ask};
use crate::{CommitHook, Core, Reply};
use cap_apply::Policy;
use cap_codec::Contents;
use cap_database::{Change, Database, Op, RefusedAt};
use cap_row::Schema;
use cap_session::{Delta, Sessions};
use cap_txn::Batch;
use cap_value::{AllocHandle, Fault, Name, Refusal};

impl<A: AllocHandle> Core<A> {
    // Makes an empty table.
    #[inline(never)]
    pub(crate) fn create_table<C: CommitHook<A>>(
        &mut self,
        name: &Name<A>,
        schema: &Schema<A>,
        hook: &mut C,
    ) -> Result<Reply<A>, Fault<C::Refusal>>
        requires room { HasRoom self.old.events }
        requires can_ask { C.can_ask hook.old
            (write_reply self.old (created (create self.old.main name.now schema.now))) }
        ensures { ReportsWrite C.gives (created (create self.old.main name.now schema.now)) []
            self.old self.new hook.old hook.new result }
    {
        cap_database::laws::tables_keep_columns::<A>();
        match with_table(&self.main, name, schema) {
            Ok(tables) => {
                let changes = Vec::new(self.alloc);
                let version = self.version + 1;
                let reply = Reply::Written { version };
                self.reserve_and_publish(tables, changes.as_slice(), &[], reply, hook)
            }
            Err(Fault::Refused(why)) => self.reply_only(Reply::Refused { at: None, why }, hook),
            Err(Fault::OutOfMemory) => Err(Fault::OutOfMemory),
        }
    }

    // Commits a transaction.
    pub(crate) fn commit<C: CommitHook<A>>(
        &mut self,
        batch: &Batch<A>,
        hook: &mut C,
    ) -> Result<Reply<A>, Fault<C::Refusal>>
        requires room { HasRoom self.old.events }
        requires can_ask { C.can_ask hook.old (write_reply self.old (commit_unless
            (stale batch.now.base batch.now.reads (snapshot_of self.old)) self.old.main batch.now.ops)) }
        ensures { ReportsWrite C.gives
            (commit_unless
            (stale batch.now.base batch.now.reads (snapshot_of self.old)) self.old.main batch.now.ops) []
            self.old self.new hook.old hook.new result }
    {
        if let Some(why) = batch.stale(self.version, &self.main) {
            return self.reply_only(Reply::Refused { at: None, why }, hook);
        }
        cap_database::laws::tables_keep_columns::<A>();
        self.main.sound_rows_law();
        let ops = batch.ops();
        let reply = Reply::Written {
            version: self.version + 1,
        };
        match write_and_record(&mut self.main, &mut self.sessions, ops, &reply, hook)? {
            Ok(()) => {
                self.version += 1;
                self.events += 1;
                Ok(reply)
            }
            Err(refused) => {
                let at = Some(refused.at as u64);
                let why = refused.why;
                self.reply_only(Reply::Refused { at, why }, hook)
            }
        }
    }

    // Applies a changeset or a patchset under a policy, and leaves these sessions as they are.
    #[inline(never)]
    pub(crate) fn apply<C: CommitHook<A>>(
        &mut self,
        blob: &Contents<A>,
        policy: Policy,
        quiet: &[u64],
        hook: &mut C,
    ) -> Result<Reply<A>, Fault<C::Refusal>>
        requires room { HasRoom self.old.events }
        requires can_ask { C.can_ask hook.old
            (write_reply self.old (application self.old blob.now policy quiet.now)) }
        ensures { ReportsWrite C.gives (application self.old blob.now policy quiet.now) quiet.now
            self.old self.new hook.old hook.new result }
    {
        cap_apply::laws::applied_blobs_keep_columns::<A>();
        match self.refused_quiet(quiet) {
            Some(why) => self.reply_only(Reply::Refused { at: None, why }, hook),
            None => match cap_apply::apply(self.alloc, &self.main, blob, policy) {
                Ok(applied) => {
                    let (database, changes, report) = applied.into_parts();
                    let version = self.version + 1;
                    let reply = Reply::Applied { version, report };
                    self.reserve_and_publish(database, changes.as_slice(), quiet, reply, hook)
                }
                Err(Fault::Refused(why)) => {
                    let at = change_refused(why);
                    self.reply_only(Reply::Refused { at, why }, hook)
                }
                Err(Fault::OutOfMemory) => Err(Fault::OutOfMemory),
            },
        }
    }

    // Reserves what memory the write still needs, that of the sessions, asks the hook, and publishes these
    // tables as the next version. The changes are recorded in each session but the quiet ones.
    fn reserve_and_publish<C: CommitHook<A>>(
        &mut self,
        tables: Database<A>,
        changes: &[Change<A>],
        quiet: &[u64],
        reply: Reply<A>,
        hook: &mut C,
    ) -> Result<Reply<A>, Fault<C::Refusal>>
        requires room { HasRoom self.old.events }
        requires kept { KeepsColumns self.old.main tables }
        requires carried { CarryFirstRows self.old.main changes.now }
        requires can_ask { C.can_ask hook.old reply }
        ensures { Reports C.gives reply (written self.old tables changes.now quiet.now)
            self.old self.new hook.old hook.new result }
    {
        self.main.sound_rows_law();
        let delta = self.sessions.reserve(changes, quiet)?;
        ask(hook, &reply)?;
        self.sessions.publish(delta);
        self.main = tables;
        self.version += 1;
        self.events += 1;
        Ok(reply)
    }
}

// Makes operations, where the hook allows this reply, and records their changes in each session.
fn write_and_record<A: AllocHandle, C: CommitHook<A>>(
    main: &mut Database<A>,
    sessions: &mut Sessions<A>,
    ops: &[Op<A>],
    reply: &Reply<A>,
    hook: &mut C,
) -> Result<Result<(), RefusedAt>, Fault<C::Refusal>>
    requires { (left : OutcomeState A) → run main.old ops.now ≡ Ok left → C.can_ask hook.old reply.now }
    ensures { RecordsWrite C.gives reply.now (run main.old ops.now) main.old main.new
        sessions.old sessions.new hook.old hook.new result }
{
    match write_reserved(main, sessions, ops, reply, hook)? {
        Ok(Some(delta)) => {
            sessions.publish(delta);
            Ok(Ok(()))
        }
        Ok(None) => unreachable!(),
        Err(refused) => Ok(Err(refused)),
    }
}

// Makes operations, where the hook allows this reply, and answers what their changes add to the sessions.
fn write_reserved<A: AllocHandle, C: CommitHook<A>>(
    main: &mut Database<A>,
    sessions: &mut Sessions<A>,
    ops: &[Op<A>],
    reply: &Reply<A>,
    hook: &mut C,
) -> Result<Result<Option<Delta<A>>, RefusedAt>, Fault<C::Refusal>>
    requires { (left : OutcomeState A) → run main.old ops.now ≡ Ok left → C.can_ask hook.old reply.now }
    ensures written { ReservesWrite C.gives reply.now (run main.old ops.now) main.old main.new
        sessions.old hook.old hook.new result }
    ensures kept { sessions.new ≡ sessions.old }
{
    let mut delta = None;
    let mut recording = RecordingHook {
        sessions,
        delta: &mut delta,
        reply,
        hook,
    };
    match write_recording(main, ops, &mut recording) {
        Ok(Ok(())) => Ok(Ok(delta)),
        Ok(Err(refused)) => Ok(Err(refused)),
        Err(fault) => Err(fault),
    }
}

// Makes operations, where the hook allows its reply.
fn write_recording<'a, 'b, 'c, 'd, A: AllocHandle, C: CommitHook<A>>(
    main: &mut Database<A>,
    ops: &[Op<A>],
    recording: &mut RecordingHook<'a, 'b, 'c, 'd, A, C>,
) -> Result<Result<(), RefusedAt>, Fault<C::Refusal>>
    requires { (left : OutcomeState A) → run main.old ops.now ≡ Ok left
        → C.can_ask recording.old.hook.now recording.old.reply.now }
    ensures written { RecordingWrites C.gives recording.old.reply.now (run main.old ops.now) main.old main.new
        recording.old.sessions.now recording.new.delta.now recording.old.hook.now recording.new.hook.now result }
    ensures hook { recording.new.hook.ghost_name ≡ recording.old.hook.ghost_name }
    ensures sessions { recording.new.sessions.ghost_name ≡ recording.old.sessions.ghost_name }
    ensures delta { recording.new.delta.ghost_name ≡ recording.old.delta.ghost_name }
    ensures kept { recording.new.sessions.now ≡ recording.old.sessions.now }
{
    main.write(ops, recording)
}

// The tables and a new empty one.
fn with_table<A: AllocHandle>(
    main: &Database<A>,
    name: &Name<A>,
    schema: &Schema<A>,
) -> Result<Database<A>, Fault<Refusal>>
    ensures { AnswersUnlessMemory result (create main.now name.now schema.now) }
{
    let mut tables = main.snapshot()?;
    match tables.create(name.copy()?, schema.copy()?) {
        Ok(()) => Ok(tables),
        Err(fault) => Err(fault),
    }
}

// The change of a blob at which its application ended.
fn change_refused(why: Refusal) -> Option<u64>
    ensures { result ≡ change_refused why }
{
    match why {
        Refusal::Aborted { at } | Refusal::Misuse { at } => Some(at),
        _ => None,
    }
}
