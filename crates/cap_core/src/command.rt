//! The commands of the server.

use crate::{QuietSessions, SessionCommand};
use cap_apply::Policy;
use cap_codec::Contents;
use cap_row::Schema;
use cap_txn::Batch;
use cap_value::{AllocHandle, Name};

/// A command to the server. Where a variant names no other, the reply is `Done`.
#[derive(Drop)]
pub enum Command<A: AllocHandle> {
    /// Creates an empty table. The reply is `Written`. Refused with `TableExists`, or with `TooMany` where
    /// the database has 64 tables.
    CreateTable {
        /// The table's name.
        table: Name<A>,
        /// Its columns.
        schema: Schema<A>,
    },
    /// Commits a transaction: all of its operations, or none. The reply is `Written`. Refused with `Stale`
    /// where something that the transaction looked at has changed, or, in a batch whose base is a number
    /// alone, where it is not the present version; and otherwise as its first refused operation.
    Commit(Batch<A>),
    /// Applies a changeset or patchset (sqlite3changeset_apply). The reply is `Applied`. Refused with
    /// `NoSession` where a quiet session is not live, with `Aborted` where the policy aborts, or with
    /// `Misuse` where it replaces a row that is not there.
    Apply {
        /// The changeset or patchset.
        blob: Contents<A>,
        /// How conflicts are resolved.
        policy: Policy,
        /// The sessions that it leaves as they are. Each other session records its changes.
        quiet: QuietSessions<A>,
    },
    /// Takes a snapshot of the tables. The reply is `Snapshot`.
    Read,
    /// Lists the tables, with their columns and how many rows they have. The reply is `Tables`.
    Tables,
    /// Dumps all tables: the changeset of INSERTs that makes them of nothing, as far as a changeset can hold
    /// them. The reply is `Dump`.
    Dump,
    /// Saves the tables under a name, and replaces what was saved under it. Refused with `TooMany` where 16
    /// databases are saved under other names.
    SaveAs {
        /// The name.
        database: Name<A>,
    },
    /// Drops the database that is saved under a name. Refused with `NoDatabase` where none is.
    DropDatabase {
        /// The name.
        database: Name<A>,
    },
    /// Lists the saved databases (the sqlite3 shell's `.databases`). The reply is `Databases`.
    Databases,
    /// Lists the live sessions (the sqlite3 shell's `.session list`). The reply is `Sessions`.
    Sessions,
    /// Creates a session, which records changes to its attached tables (sqlite3session_create). The reply is
    /// `Session`. Refused with `TooMany` where 64 sessions are live.
    NewSession,
    /// A command to one session. Refused with `NoSession` where no session has the number, before anything
    /// else.
    Session {
        /// The session's number.
        session: u64,
        /// What it is told.
        command: SessionCommand<A>,
    },
}

impl<A: AllocHandle> Command<A> {
    ghost use Rattle.std.specs.Prelude.{◌≡◌};
    ghost use Rattle.cap_core.specs.Flags.{session_named};
    ghost use Rattle.cap_core.specs.Table.{BlobFits};

    /// The number of the session that the command is to, where it is to one.
    pub fn session_named(&self) -> Option<u64>
        ensures { result ≡ session_named self.now }
    {
        match self {
            Command::Session { session, .. } => Some(*session),
            _ => None,
        }
    }

    /// A law of every command: the changes of the blob that it applies fit the columns of their groups. The
    /// call does nothing.
    pub fn blob_fits(&self)
        ensures { BlobFits self.now }
    {
        if let Command::Apply { blob, .. } = self {
            cap_apply::laws::blob_fits_its_columns(blob);
        }
    }
}
