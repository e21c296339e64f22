//! The sequential server: the reply to each command, and the state that it leaves.
#![tactic(auto)]

mod capture;
mod changeset;
mod command;
mod commit_hook;
mod diff;
mod dump;
mod event;
pub mod laws;
mod limits;
mod listed_session;
mod listed_table;
mod names;
mod quiet;
mod refused_first;
mod reply;
mod server;
mod session_changes;
mod session_command;
mod session_commands;
mod session_list;
mod table_list;
mod writes;

pub use capture::Capture;
pub use command::Command;
pub use commit_hook::{CommitHook, Never, NoHook};
pub use dump::Dump;
pub use event::Event;
pub use limits::{EVENTS_MAX, SAVED_MAX, SESSIONS_MAX};
pub use listed_session::ListedSession;
pub use listed_table::ListedTable;
pub use names::NameList;
pub use quiet::QuietSessions;
pub use reply::Reply;
pub use server::Core;
pub use session_changes::{can_capture, changes_of};
pub use session_command::SessionCommand;
pub use session_list::SessionList;
pub use table_list::TableList;
