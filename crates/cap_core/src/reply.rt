//! The replies of the server.

use crate::{Capture, Dump, NameList, SessionList, TableList};
use cap_apply::Report;
use cap_database::Snapshot;
use cap_value::{AllocHandle, Refusal};

/// The reply to a command.
#[derive(Drop)]
pub enum Reply<A: AllocHandle> {
    /// The command was carried out.
    Done,
    /// The tables were changed.
    Written {
        /// The new version.
        version: u64,
    },
    /// A changeset or patchset was applied.
    Applied {
        /// The new version.
        version: u64,
        /// The outcome of its changes.
        report: Report<A>,
    },
    /// A session with this number was made.
    Session(u64),
    /// The names of the saved databases, in order.
    Databases(NameList<A>),
    /// The live sessions, in the order in which they were created.
    Sessions(SessionList<A>),
    /// The tables as they are listed, in the order of their names.
    Tables(TableList<A>),
    /// The tables, with their version.
    Snapshot(Snapshot<A>),
    /// The value of a flag, or whether a session is empty.
    Flag(bool),
    /// The session's changes, with the version of the tables.
    Capture(Capture<A>),
    /// The tables to be written as a changeset, with their version.
    Dump(Dump<A>),
    /// The command is refused. Nothing changed.
    Refused {
        /// The index of the refused operation or change, from 0, where the command has several.
        at: Option<u64>,
        /// Why.
        why: Refusal,
    },
}
