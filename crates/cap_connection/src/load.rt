//! The tables and rows of a blob, made in a history.
ghost use Rattle.std.specs.Prelude.{◌≡◌, map};
ghost use Rattle.cap_core.specs.Outcome.{change_refused};
ghost use Rattle.cap_core.specs.declared.command.Command.TheVariants as command;
ghost use Rattle.cap_dump.specs.Load.{load, named_in, tables_in};
ghost use Rattle.cap_connection.specs.Loads.{CreatesEach, Loads, LooksAt, MayLoad};
ghost use Rattle.cap_connection.specs.Replies.{number_in};
ghost use Rattle.cap_connection.specs.Runs.{RunsMade};

use crate::connection::Connection;
use crate::fault::ConnectionFault;
use crate::iter::BlobIter;
use crate::replies::Applied;
use cap_apply::{Answer, Policy};
use cap_changes::{Entry, TableGroup};
use cap_codec::Contents;
use cap_core::{Command, QuietSessions};
use cap_database::Database;
use cap_dump::load;
use cap_value::{Fault, Refusal};
use std::alloc::Global;

impl Connection {
    /// Creates the table of each group of an iterator's contents, and applies the contents to them, wherever
    /// it stands: what is dumped on one history and loaded here gives the same tables. Where the tables as
    /// they are refuse it, nothing is made.
    ///
    /// It is several commands, a read, a command for each table and an application, and no transaction: where
    /// another connection creates a table among them, or a command has no reply, those before it stay.
    pub fn load(
        &mut self,
        alloc: Global,
        it: &mut BlobIter,
    ) -> Result<Applied, Fault<ConnectionFault>>
        ensures { Loads it.old it.new self.old self.new result }
    {
        match look_at(self, alloc, it.contents()) {
            Ok(()) => {}
            Err(why) => return Err(why),
        }
        match create_tables(self, it.contents()) {
            Ok(()) => {}
            Err(why) => return Err(why),
        }
        self.apply(
            alloc,
            it,
            Policy::always(Answer::Abort),
            QuietSessions::none(alloc),
        )
    }
}

// Whether the tables as they are take the blob.
fn look_at(
    connection: &mut Connection,
    alloc: Global,
    blob: &Contents<Global>,
) -> Result<(), Fault<ConnectionFault>>
    ensures { LooksAt blob.now connection.old connection.new result }
{
    match connection.read() {
        Ok(snapshot) => may_load(alloc, snapshot.database(), blob),
        Err(why) => Err(why),
    }
}

fn may_load(
    alloc: Global,
    database: &Database<Global>,
    blob: &Contents<Global>,
) -> Result<(), Fault<ConnectionFault>>
    ensures { MayLoad (load database.now blob.now) result }
{
    match load(alloc, database, blob) {
        Ok(_) => Ok(()),
        Err(Fault::Refused(why)) => Err(Fault::Refused(ConnectionFault::Refused {
            at: change_refused(why),
            why,
        })),
        Err(Fault::OutOfMemory) => Err(Fault::OutOfMemory),
    }
}

// The number of the change that is refused.
fn change_refused(why: Refusal) -> Option<u64>
    ensures { result ≡ change_refused why }
{
    match why {
        Refusal::Aborted { at } | Refusal::Misuse { at } => Some(at),
        _ => None,
    }
}

fn create_tables(
    connection: &mut Connection,
    blob: &Contents<Global>,
) -> Result<(), Fault<ConnectionFault>>
    ensures { CreatesEach (tables_in blob.now) connection.old connection.new result }
{
    match blob {
        Contents::Changes(list) => create_each(connection, list.groups()),
        Contents::Patches(list) => create_each(connection, list.groups()),
    }
}

// Creates the table of each group, up to the first that is not created.
fn create_each<C: Entry>(
    connection: &mut Connection,
    groups: &[TableGroup<C, Global>],
) -> Result<(), Fault<ConnectionFault>>
    ensures { CreatesEach (map named_in groups.now) connection.old connection.new result }
{
    let [group, others @ ..] = groups else {
        return Ok(());
    };
    match create(connection, group) {
        Ok(_) => create_each(connection, others),
        Err(why) => Err(why),
    }
}

fn create<C: Entry>(
    connection: &mut Connection,
    group: &TableGroup<C, Global>,
) -> Result<u64, Fault<ConnectionFault>>
    ensures { RunsMade number_in (command.CreateTable group.now.table group.now.schema) connection.old
        connection.new result }
{
    let Ok(table) = group.table().copy() else {
        return Err(Fault::OutOfMemory);
    };
    let Ok(schema) = group.schema().copy() else {
        return Err(Fault::OutOfMemory);
    };
    connection.run_number(&Command::CreateTable { table, schema })
}
