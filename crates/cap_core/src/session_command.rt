//! The commands to one session.
ghost use Rattle.std.specs.Prelude.{◌≡◌};
ghost use Rattle.cap_core.specs.declared.command.Command.TheVariants.{Session};
ghost use Rattle.cap_core.specs.declared.session_command.SessionCommand.TheVariants.{Delete, Attach};
ghost use Rattle.cap_core.specs.declared.session_command.SessionCommand.TheVariants.{Capture, Change};
ghost use Rattle.cap_core.specs.declared.session_command.SessionCommand.TheVariants.{Diff, IsEmpty};
ghost use Rattle.cap_session.specs.declared.session_change.SessionChange.TheVariants.{AttachAll, Enable};
ghost use Rattle.cap_session.specs.declared.session_change.SessionChange.TheVariants.{Indirect, Restart};
ghost use Rattle.cap_session.specs.declared.session_change.SessionChange.TheVariants.{SetFilter};

use crate::Command;
use cap_filter::TableFilter;
use cap_session::SessionChange;
use cap_value::{AllocHandle, Name};

/// A command to one session. Where a variant names no other, the reply is `Done`.
pub enum SessionCommand<A: AllocHandle> {
    /// Deletes the session (sqlite3session_delete). Its number is never reused.
    Delete,
    /// Attaches a table (sqlite3session_attach). The table need not exist.
    Attach {
        /// The table's name.
        table: Name<A>,
    },
    /// Changes its rule, a flag or its records. The reply of a flag is `Flag`, after the change; that of a
    /// restart is `Capture`, before it.
    Change(SessionChange<A>),
    /// Queries whether it has recorded no row (sqlite3session_isempty). The reply is `Flag`. A recorded row
    /// may be as it was: then the session is not empty, and a capture may have no change.
    IsEmpty,
    /// Records how a table differs from the table of the same name in a saved database (sqlite3session_diff).
    /// It attaches the table, whatever the filter says, and records also where the session is disabled. Its
    /// touches are indirect where the session's indirect flag is set, and first images are kept. Does nothing
    /// where the table does not exist or has no key columns. Otherwise refused with `NoDatabase`, or with
    /// `Incompatible` where the saved database lacks the table. Tables of one name keep their columns, so
    /// these never differ on a server.
    Diff {
        /// The saved database's name.
        from: Name<A>,
        /// The table's name.
        table: Name<A>,
    },
    /// Captures its changes (sqlite3session_changeset, sqlite3session_patchset). The reply is `Capture`.
    Capture,
}

// A derived `Drop` would be opened in each caller.
impl<A: AllocHandle> Drop for SessionCommand<A> {
    fn drop(self) {
        match self {
            SessionCommand::Delete => {}
            SessionCommand::Attach { table: _ } => {}
            SessionCommand::Change(_) => {}
            SessionCommand::IsEmpty => {}
            SessionCommand::Diff { from: _, table: _ } => {}
            SessionCommand::Capture => {}
        }
    }
}

impl<A: AllocHandle> Command<A> {
    /// Deletes a session (sqlite3session_delete).
    pub fn drop_session(session: u64) -> Self
        ensures { result ≡ Session session Delete }
    {
        let command = SessionCommand::Delete;
        Command::Session { session, command }
    }

    /// Attaches a table to a session (sqlite3session_attach).
    pub fn attach(session: u64, table: Name<A>) -> Self
        ensures { result ≡ Session session (Attach table) }
    {
        let command = SessionCommand::Attach { table };
        Command::Session { session, command }
    }

    /// Attaches each table of which a row changes (sqlite3session_attach with no name).
    pub fn attach_all(session: u64) -> Self
        ensures { result ≡ Session session (Change AttachAll) }
    {
        change(session, SessionChange::AttachAll)
    }

    /// Attaches each table of which a row changes and whose name the filter accepts
    /// (sqlite3session_table_filter).
    pub fn set_filter(session: u64, filter: TableFilter<A>) -> Self
        ensures { result ≡ Session session (Change (SetFilter filter)) }
    {
        change(session, SessionChange::SetFilter(filter))
    }

    /// Sets or queries whether a session is enabled (sqlite3session_enable).
    pub fn enable(session: u64, enabled: Option<bool>) -> Self
        ensures { result ≡ Session session (Change (Enable enabled)) }
    {
        change(session, SessionChange::Enable(enabled))
    }

    /// Sets or queries the indirect flag of a session (sqlite3session_indirect).
    pub fn indirect(session: u64, indirect: Option<bool>) -> Self
        ensures { result ≡ Session session (Change (Indirect indirect)) }
    {
        change(session, SessionChange::Indirect(indirect))
    }

    /// Queries whether a session has recorded no row (sqlite3session_isempty).
    pub fn is_empty(session: u64) -> Self
        ensures { result ≡ Session session IsEmpty }
    {
        let command = SessionCommand::IsEmpty;
        Command::Session { session, command }
    }

    /// Records how a table differs from that of a saved database (sqlite3session_diff).
    pub fn diff(session: u64, from: Name<A>, table: Name<A>) -> Self
        ensures { result ≡ Session session (Diff from table) }
    {
        let command = SessionCommand::Diff { from, table };
        Command::Session { session, command }
    }

    /// Captures a session's changes (sqlite3session_changeset, sqlite3session_patchset).
    pub fn capture(session: u64) -> Self
        ensures { result ≡ Session session Capture }
    {
        let command = SessionCommand::Capture;
        Command::Session { session, command }
    }

    /// Captures a session's changes, and then deletes its records. Its flags, filter and attached tables
    /// stay.
    pub fn restart(session: u64) -> Self
        ensures { result ≡ Session session (Change Restart) }
    {
        change(session, SessionChange::Restart)
    }
}

// A change of the session with this number.
fn change<A: AllocHandle>(session: u64, change: SessionChange<A>) -> Command<A>
    ensures { result ≡ Session session (Change change) }
{
    let command = SessionCommand::Change(change);
    Command::Session { session, command }
}
