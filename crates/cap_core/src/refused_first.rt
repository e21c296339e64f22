//! The refusals of a command that are known without memory.
ghost use Rattle.std.specs.Prelude.{◌≡◌, is_some};
ghost use Rattle.std.specs.List.{list_all};
ghost use Rattle.std.specs.Result.{result_err};
ghost use Rattle.cap_core.specs.Answer.{refused_quiet, session_reply, snapshot_of};
ghost use Rattle.cap_core.specs.Diff.{diff};
ghost use Rattle.cap_core.specs.RefusedFirst.{refusal_in, refused_batch, refused_first, whole};
ghost use Rattle.cap_database.specs.Operation.{refused_step};
ghost use Rattle.cap_database.specs.Tables.{refused_create};
ghost use Rattle.cap_session.specs.Session.{SessionState};
ghost use Rattle.cap_session.specs.Sessions.{session_numbered};
ghost use Rattle.cap_txn.specs.Stale.{stale};

use crate::server::has_room_for;
use crate::{Command, Core, SESSIONS_MAX, SessionCommand};
use cap_database::{Action, Database, Op, TABLES_MAX};
use cap_session::Sessions;
use cap_txn::Batch;
use cap_value::{AllocHandle, Name, Refusal};

// A refusal, with the index of the refused operation where it is one of several.
type Why = (Option<u64>, Refusal);

impl<A: AllocHandle> Core<A> {
    // What a command is refused that is known without memory.
    #[inline(never)]
    pub(crate) fn refused_first(&self, command: &Command<A>) -> Option<Why>
        ensures { result ≡ refused_first self.now command.now }
    {
        match command {
            Command::Commit(batch) => self.refused_batch(batch),
            Command::Apply { quiet, .. } => whole(self.refused_quiet(quiet.numbers())),
            Command::CreateTable { table, .. } => whole(refused_create(&self.main, table)),
            Command::SaveAs { database } => {
                if has_room_for(&self.saved, database) {
                    return None;
                }
                Some((None, Refusal::TooMany))
            }
            Command::DropDatabase { database } => {
                if self.saved.get(database).is_some() {
                    return None;
                }
                Some((None, Refusal::NoDatabase))
            }
            Command::NewSession => {
                if self.sessions.len() < SESSIONS_MAX {
                    return None;
                }
                Some((None, Refusal::TooMany))
            }
            Command::Session { session, command } => match self.sessions.get(*session) {
                Some(_) => self.refused_session_command(command),
                None => Some((None, Refusal::NoSession)),
            },
            _ => None,
        }
    }

    // A command to a session that is live.
    #[tactic(auto, using(crate::proofs::NextLemmas::diff_known))]
    fn refused_session_command(&self, command: &SessionCommand<A>) -> Option<Why>
        ensures { (session : SessionState A) → result
            ≡ refusal_in (session_reply self.now command.now session) }
    {
        match command {
            SessionCommand::Diff { from, table } => whole(self.refused_diff(from, table)),
            _ => None,
        }
    }

    // One of these sessions is not live.
    pub(crate) fn refused_quiet(&self, quiet: &[u64]) -> Option<Refusal>
        ensures { result ≡ refused_quiet self.now.sessions quiet.now }
    {
        if are_live(&self.sessions, quiet) {
            return None;
        }
        Some(Refusal::NoSession)
    }

    // A batch is out of date, or its first operation is refused.
    fn refused_batch(&self, batch: &Batch<A>) -> Option<Why>
        ensures { result ≡ refused_batch (stale batch.now.base batch.now.reads (snapshot_of self.now))
            self.now.main batch.now.ops }
    {
        if let Some(why) = batch.stale(self.version, &self.main) {
            return Some((None, why));
        }
        let op = batch.ops().first()?;
        let why = refused_step(&self.main, op)?;
        Some((Some(0), why))
    }

    // A table that exists and has key columns is compared with one that is not there, or has other columns.
    fn refused_diff(&self, from: &Name<A>, name: &Name<A>) -> Option<Refusal>
        ensures { result ≡ result_err (diff self.now.main self.now.saved from.now name.now) }
    {
        let table = self.main.table(name)?;
        if !table.schema().has_key() {
            return None;
        }
        let Some(database) = self.saved.get(from) else {
            return Some(Refusal::NoDatabase);
        };
        let Some(first) = database.table(name) else {
            return Some(Refusal::Incompatible);
        };
        if first.schema() == table.schema() {
            return None;
        }
        Some(Refusal::Incompatible)
    }
}

// A refusal of a whole command.
fn whole(why: Option<Refusal>) -> Option<Why>
    ensures { result ≡ whole why }
{
    match why {
        Some(why) => Some((None, why)),
        None => None,
    }
}

// What a new table is refused.
fn refused_create<A: AllocHandle>(tables: &Database<A>, name: &Name<A>) -> Option<Refusal>
    ensures { result ≡ refused_create tables.now name.now }
{
    if tables.table(name).is_some() {
        return Some(Refusal::TableExists);
    }
    if tables.len() < TABLES_MAX {
        return None;
    }
    Some(Refusal::TooMany)
}

// What an operation is refused before memory is needed.
fn refused_step<A: AllocHandle>(tables: &Database<A>, op: &Op<A>) -> Option<Refusal>
    ensures { result ≡ refused_step tables.now op.now }
{
    let Some(table) = tables.table(&op.table) else {
        return Some(Refusal::NoTable);
    };
    match &op.action {
        Action::Insert(row) => table.refused_insert(row),
        Action::Update(name, fields) => table.refused_update(name, fields.fields()),
        Action::Delete(name) => table.refused_delete(name),
    }
}

// Whether there is a session with each of these numbers.
fn are_live<A: AllocHandle>(sessions: &Sessions<A>, numbers: &[u64]) -> bool
    ensures { result
        ≡ list_all (λ number. is_some (session_numbered sessions.now number)) numbers.now }
{
    numbers.iter().all(|number| sessions.get(*number).is_some())
}
