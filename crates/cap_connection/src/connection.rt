//! A connection to a history in memory, which several connections may share.
ghost use Rattle.std.specs.Prelude.{◌≡◌, [], IfErr, IfOk, Some, length};
ghost use Rattle.std.specs.Option.{option_map_or};
ghost use Rattle.std.specs.Result.{result_map_both};
ghost use mathlib.Core.List.{IsPrefix};
ghost use Rattle.cap_txn.specs.Batch.{BatchState};
ghost use Rattle.cap_core.specs.declared.command.Command.TheVariants as command;
ghost use Rattle.cap_core.specs.declared.session_command.SessionCommand.TheVariants as told;
ghost use Rattle.cap_session.specs.declared.session_change.SessionChange.TheVariants as change;
ghost use Rattle.cap_history.specs.History.{IsHistory};
ghost use Rattle.cap_history.specs.Seat.{IsAnswered, calls};
ghost use Rattle.cap_connection.specs.Calls.{Applies, Attaches, Captures, Commits, CreatesTable, Diffs};
ghost use Rattle.cap_connection.specs.Calls.{Saves, SetsFilter, TakesSnapshot};
ghost use Rattle.cap_connection.specs.Clients.{Joins, Looks, Meets, Opens};
ghost use Rattle.cap_connection.specs.Commands.{IsApply, IsCapture, blob_in};
ghost use Rattle.cap_connection.specs.Replies.{flag_in, nothing_in, number_in, outcome_in};
ghost use Rattle.cap_connection.specs.Runs.{Runs, RunsMade};
ghost use Rattle.cap_connection.specs.TextCall.{CallsText, RunsLine};

use crate::captured::Captured;
use crate::columns::{are_columns, schema_of};
use crate::fault::{ConnectionFault, fault_of};
use crate::iter::BlobIter;
use crate::one_command::one_command;
use crate::printer::Printer;
use crate::replies::{
    Applied, applied_in, flag_in, is_accepted, number_in, refusal_in, report_in, snapshot_in,
};
use cap_apply::{Policy, Report};
use cap_codec::Contents;
use cap_core::{Command, QuietSessions, Reply};
use cap_database::Snapshot;
use cap_filter::TableFilter;
use cap_hub::{Client, JoinFault};
use cap_locked::HookFault;
use cap_records::name_text;
use cap_script::Line;
use cap_txn::Batch;
use cap_value::{Fault, Name, OutOfMemory};
use std::alloc::Global;
use std::marker::Model;
use std::mem;

/// A client of a history in memory, and the text of its last reply to a command as text. Up to 64 connections
/// share a history, each on one thread at a time. No call waits: while one connection's call has the state,
/// those of others answer that it is busy. Names and texts are bytes, as they come from another language.
#[derive(Drop)]
pub struct Connection {
    client: Client,
    output: Vec<u8, Global>,
}

impl Model for Connection {
    ghost use Rattle.std.specs.Coded.{codes};
    ghost use Rattle.cap_filter.specs.Rule.{coded_rule};
    ghost use Rattle.cap_connection.specs.Connection.{ConnectionState};

    ghost Value = { ConnectionState };

    ghost coded = { Prim.hlevel (codes, coded_rule) };

    ghost view = { λ c. record { client = c.client; output = c.output.items } };
}

impl Connection {
    /// The first connection to an empty history.
    pub fn open(alloc: Global) -> Result<Self, OutOfMemory>
        ensures { IfOk result Opens }
    {
        match Client::open(alloc) {
            Ok(client) => Ok(Connection {
                client,
                output: Vec::new(alloc),
            }),
            Err(fault) => Err(fault),
        }
    }

    /// A further connection to the history. It has the seat with the least number that no connection has,
    /// with what its earlier ones have called and seen. While there are 64 it is refused.
    pub fn join(&self, alloc: Global) -> Result<Self, JoinFault>
        ensures { IfOk result (Joins self.now) }
    {
        match self.client.join() {
            Ok(client) => Ok(Connection {
                client,
                output: Vec::new(alloc),
            }),
            Err(fault) => Err(fault),
        }
    }

    /// Gives the seat back, with its number, its calls and what it has seen. While another call has the state
    /// the connection is handed back.
    pub fn close(self) -> Result<(), Self>
        ensures { IfErr result (λ connection. connection ≡ self) }
    {
        let Connection { client, output } = self;
        match client.close() {
            Ok(()) => Ok(()),
            Err(client) => Err(Connection { client, output }),
        }
    }

    // ---- What others did

    /// Sees the whole history, and gives the number of its events. It does without the state.
    pub fn front(&mut self) -> u64
        ensures { Looks self.old self.new result }
    {
        self.client.front()
    }

    /// Sees what another connection to the history has seen. It does without the state.
    pub fn meet(&mut self, other: &Connection)
        requires history { other.now.client.book ≡ self.old.client.book }
        ensures { Meets self.old other.now self.new }
    {
        self.client.meet(&other.client);
    }

    /// The number of its seat, from 0.
    pub fn number(&self) -> u64
        ensures { result ≡ self.now.client.state.number }
    {
        self.client.number()
    }

    /// The number of events that it has seen.
    pub fn seen(&self) -> u64
        ensures length { result ≡ length self.now.client.state.seen }
        ensures history { IsHistory self.now.client.state.seen }
    {
        self.client.seen()
    }

    /// The number of its seat's calls.
    pub fn calls(&self) -> u64
        ensures calls { result ≡ length (calls self.now.client.state) }
        ensures seen { IsPrefix self.now.client.state.answered self.now.client.state.seen }
        ensures answered { IsAnswered self.now.client.state.number self.now.client.state.answered }
    {
        self.client.calls()
    }

    // ---- A command as text

    /// Carries out the command that the text is, and keeps the text of its reply. The answer is whether it is
    /// accepted.
    pub fn call(&mut self, alloc: Global, text: &[u8]) -> Result<bool, Fault<ConnectionFault>>
        ensures { CallsText text.now self.old self.new result }
    {
        match one_command(alloc, text) {
            Ok(line) => self.run_line(alloc, &line),
            Err(Fault::Refused(why)) => Err(Fault::Refused(ConnectionFault::NoCommand(why))),
            Err(Fault::OutOfMemory) => Err(Fault::OutOfMemory),
        }
    }

    /// The text of the last reply to such a command.
    pub fn reply_text(&self) -> &[u8]
        ensures { result.now ≡ self.now.output }
    {
        self.output.as_slice()
    }

    // ---- Tables and sessions

    /// Creates a table. A byte for each column says whether it is in the primary key. The answer is the new
    /// version.
    pub fn create_table(
        &mut self,
        alloc: Global,
        table: &[u8],
        key: &[u8],
    ) -> Result<u64, Fault<ConnectionFault>>
        ensures { CreatesTable table.now key.now self.old self.new result }
    {
        if !are_columns(key) {
            return Err(Fault::Refused(ConnectionFault::Misuse));
        }
        let Some(table) = name_text(table) else {
            return Err(Fault::Refused(ConnectionFault::Misuse));
        };
        let Ok(table) = Name::new(alloc, table) else {
            return Err(Fault::OutOfMemory);
        };
        let Ok(schema) = schema_of(alloc, key) else {
            return Err(Fault::OutOfMemory);
        };
        self.run_number(&Command::CreateTable { table, schema })
    }

    /// Saves the tables under a name, and replaces what was saved under it.
    pub fn save(&mut self, alloc: Global, database: &[u8]) -> Result<(), Fault<ConnectionFault>>
        ensures { Saves database.now self.old self.new result }
    {
        let Some(database) = name_text(database) else {
            return Err(Fault::Refused(ConnectionFault::Misuse));
        };
        let Ok(database) = Name::new(alloc, database) else {
            return Err(Fault::OutOfMemory);
        };
        self.run_nothing(&Command::SaveAs { database })
    }

    /// Applies the changeset or the patchset of an iterator (sqlite3changeset_apply), wherever it stands. It
    /// then has the conflicts of this application. Where nothing was applied it is as it was. The quiet
    /// sessions record none of its changes.
    pub fn apply(
        &mut self,
        alloc: Global,
        it: &mut BlobIter,
        policy: Policy,
        quiet: QuietSessions<Global>,
    ) -> Result<Applied, Fault<ConnectionFault>>
        ensures { Applies policy quiet it.old it.new self.old self.new result }
    {
        let command = Command::Apply {
            blob: it.take_contents(alloc),
            policy,
            quiet,
        };
        let answer = self.run_applied(&command);
        it.put_contents(contents_of(command));
        match answer {
            Ok((applied, report)) => {
                it.put_report(report);
                Ok(applied)
            }
            Err(why) => Err(why),
        }
    }

    /// Makes a session (sqlite3session_create). The answer is its number.
    pub fn new_session(&mut self) -> Result<u64, Fault<ConnectionFault>>
        ensures { Runs number_in command.NewSession self.old self.new result }
    {
        self.run_number(&Command::NewSession)
    }

    /// Ends a session (sqlite3session_delete).
    pub fn drop_session(&mut self, session: u64) -> Result<(), Fault<ConnectionFault>>
        ensures { Runs nothing_in (command.Session session told.Delete) self.old self.new result }
    {
        self.run_nothing(&Command::drop_session(session))
    }

    /// Attaches every table of which a row changes from now on.
    pub fn attach_all(&mut self, session: u64) -> Result<(), Fault<ConnectionFault>>
        ensures { Runs nothing_in (command.Session session (told.Change change.AttachAll))
            self.old self.new result }
    {
        self.run_nothing(&Command::attach_all(session))
    }

    /// Attaches a table (sqlite3session_attach).
    pub fn attach(
        &mut self,
        alloc: Global,
        session: u64,
        table: &[u8],
    ) -> Result<(), Fault<ConnectionFault>>
        ensures { Attaches session table.now self.old self.new result }
    {
        let Some(table) = name_text(table) else {
            return Err(Fault::Refused(ConnectionFault::Misuse));
        };
        let Ok(table) = Name::new(alloc, table) else {
            return Err(Fault::OutOfMemory);
        };
        self.run_nothing(&Command::attach(session, table))
    }

    /// Attaches from now on each table of which a row changes and whose name the filter accepts
    /// (sqlite3session_table_filter).
    pub fn set_filter(
        &mut self,
        alloc: Global,
        session: u64,
        text: &[u8],
    ) -> Result<(), Fault<ConnectionFault>>
        ensures { SetsFilter session text.now self.old self.new result }
    {
        let Ok(text) = str::from_utf8(text) else {
            return Err(Fault::Refused(ConnectionFault::Misuse));
        };
        match TableFilter::parse(alloc, text) {
            Ok(filter) => self.run_nothing(&Command::set_filter(session, filter)),
            Err(Fault::Refused(why)) => Err(Fault::Refused(ConnectionFault::NoFilter(why))),
            Err(Fault::OutOfMemory) => Err(Fault::OutOfMemory),
        }
    }

    /// Enables or disables a session, or asks whether it is enabled (sqlite3session_enable).
    pub fn enable(
        &mut self,
        session: u64,
        enabled: Option<bool>,
    ) -> Result<bool, Fault<ConnectionFault>>
        ensures { Runs flag_in (command.Session session (told.Change (change.Enable enabled)))
            self.old self.new result }
    {
        self.run_flag(&Command::enable(session, enabled))
    }

    /// Sets the indirect flag of a session, or asks for it (sqlite3session_indirect).
    pub fn indirect(
        &mut self,
        session: u64,
        indirect: Option<bool>,
    ) -> Result<bool, Fault<ConnectionFault>>
        ensures { Runs flag_in (command.Session session (told.Change (change.Indirect indirect)))
            self.old self.new result }
    {
        self.run_flag(&Command::indirect(session, indirect))
    }

    /// Whether a session has no records (sqlite3session_isempty).
    pub fn is_empty(&mut self, session: u64) -> Result<bool, Fault<ConnectionFault>>
        ensures { Runs flag_in (command.Session session told.IsEmpty) self.old self.new result }
    {
        self.run_flag(&Command::is_empty(session))
    }

    /// Records how a table differs from the one of the same name in a saved database (sqlite3session_diff).
    pub fn diff(
        &mut self,
        alloc: Global,
        session: u64,
        from: &[u8],
        table: &[u8],
    ) -> Result<(), Fault<ConnectionFault>>
        ensures { Diffs session from.now table.now self.old self.new result }
    {
        let Some(from) = name_text(from) else {
            return Err(Fault::Refused(ConnectionFault::Misuse));
        };
        let Some(table) = name_text(table) else {
            return Err(Fault::Refused(ConnectionFault::Misuse));
        };
        let Ok(from) = Name::new(alloc, from) else {
            return Err(Fault::OutOfMemory);
        };
        let Ok(table) = Name::new(alloc, table) else {
            return Err(Fault::OutOfMemory);
        };
        self.run_nothing(&Command::diff(session, from, table))
    }

    // ---- Snapshots, captures and batches

    /// A snapshot of the tables.
    pub fn read(&mut self) -> Result<Snapshot<Global>, Fault<ConnectionFault>>
        ensures { TakesSnapshot self.old self.new result }
    {
        match self.accepted(&Command::Read) {
            Ok(reply) => Ok(snapshot_in(reply)),
            Err(why) => Err(why),
        }
    }

    /// What a session has captured.
    pub fn capture(&mut self, session: u64) -> Result<Captured, Fault<ConnectionFault>>
        ensures { Captures (command.Session session told.Capture) self.old self.new result }
    {
        self.run_captured(&Command::capture(session))
    }

    /// What a session has captured, whose records are then deleted.
    pub fn restart(&mut self, session: u64) -> Result<Captured, Fault<ConnectionFault>>
        ensures { Captures (command.Session session (told.Change change.Restart)) self.old self.new result }
    {
        self.run_captured(&Command::restart(session))
    }

    /// Commits a batch. The answer is the new version, and then the batch is empty, and may be made on any
    /// version. A batch that is refused, or has no reply, is as it was.
    pub fn commit(
        &mut self,
        alloc: Global,
        batch: &mut Batch<Global>,
    ) -> Result<u64, Fault<ConnectionFault>>
        ensures { Commits batch.old batch.new self.old self.new result }
    {
        let command = Command::Commit(mem::replace(batch, Batch::blind(alloc)));
        match self.run_number(&command) {
            Ok(version) => Ok(version),
            Err(why) => {
                *batch = batch_of(command);
                Err(why)
            }
        }
    }

    // ---- What they share

    // Carries out a command, and answers its reply where that is no refusal.
    fn accepted(
        &mut self,
        command: &Command<Global>,
    ) -> Result<Reply<Global>, Fault<ConnectionFault>>
        ensures { Runs (λ reply. reply) command.now self.old self.new result }
    {
        match self.client.call(command) {
            Ok(reply) => match refusal_in(&reply) {
                Some((at, why)) => Err(Fault::Refused(ConnectionFault::Refused { at, why })),
                None => Ok(reply),
            },
            Err(fault) => Err(fault_of(fault)),
        }
    }

    fn run_nothing(&mut self, command: &Command<Global>) -> Result<(), Fault<ConnectionFault>>
        ensures runs { Runs nothing_in command.now self.old self.new result }
        // The same of a command whose arguments took memory.
        ensures made { RunsMade nothing_in command.now self.old self.new result }
    {
        match self.accepted(command) {
            Ok(_) => Ok(()),
            Err(why) => Err(why),
        }
    }

    pub(crate) fn run_number(
        &mut self,
        command: &Command<Global>,
    ) -> Result<u64, Fault<ConnectionFault>>
        ensures runs { Runs number_in command.now self.old self.new result }
        // The same of a command whose arguments took memory.
        ensures made { RunsMade number_in command.now self.old self.new result }
    {
        match self.accepted(command) {
            Ok(reply) => Ok(number_in(&reply)),
            Err(why) => Err(why),
        }
    }

    fn run_flag(&mut self, command: &Command<Global>) -> Result<bool, Fault<ConnectionFault>>
        ensures { Runs flag_in command.now self.old self.new result }
    {
        match self.accepted(command) {
            Ok(reply) => Ok(flag_in(&reply)),
            Err(why) => Err(why),
        }
    }

    fn run_applied(
        &mut self,
        command: &Command<Global>,
    ) -> Result<(Applied, Option<Report<Global>>), Fault<ConnectionFault>>
        ensures { Runs outcome_in command.now self.old self.new
            (result_map_both (λ made. (made.0, option_map_or (λ report. report.conflicts) made.1 []))
            (λ why. why) result) }
    {
        match self.accepted(command) {
            Ok(reply) => Ok((applied_in(&reply), report_in(reply))),
            Err(why) => Err(why),
        }
    }

    fn run_captured(
        &mut self,
        command: &Command<Global>,
    ) -> Result<Captured, Fault<ConnectionFault>>
        requires captures { IsCapture command.now }
        ensures { Captures command.now self.old self.new result }
    {
        match self.accepted(command) {
            Ok(reply) => Ok(Captured::of(reply)),
            Err(why) => Err(why),
        }
    }

    // Carries out a line's command, and keeps the text of its reply.
    fn run_line(
        &mut self,
        alloc: Global,
        line: &Line<Global>,
    ) -> Result<bool, Fault<ConnectionFault>>
        ensures { RunsLine line.now self.old self.new result }
    {
        let mut text = Vec::new(alloc);
        let answer = {
            let mut printer = Printer {
                alloc,
                line,
                output: &mut text,
            };
            self.client.call_with_hook(&line.command, &mut printer)
        };
        match answer {
            Ok(reply) => {
                self.output = text;
                Ok(is_accepted(&reply))
            }
            Err(HookFault::Refused(_)) => Err(Fault::OutOfMemory),
            Err(HookFault::Call(fault)) => Err(fault_of(fault)),
        }
    }
}

// The batch that a command commits.
fn batch_of(commit: Command<Global>) -> Batch<Global>
    requires commits { (batch : BatchState Global) × (commit ≡ command.Commit batch) }
    ensures { commit ≡ command.Commit result }
{
    match commit {
        Command::Commit(batch) => batch,
        _ => unreachable!(),
    }
}

// The contents that a command applies.
fn contents_of(apply: Command<Global>) -> Contents<Global>
    requires { IsApply apply }
    ensures { blob_in apply ≡ Some result }
{
    match apply {
        Command::Apply { blob, .. } => blob,
        _ => unreachable!(),
    }
}
