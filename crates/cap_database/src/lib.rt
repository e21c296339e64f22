//! Databases, and lists of operations on them that are made whole or not at all.
#![tactic(auto)]

mod assignments;
mod cause;
mod change;
mod database;
mod effect;
mod kept_key;
mod keyed;
pub mod laws;
mod limits;
mod op;
mod outcome;
mod place;
mod refused_at;
mod run;
mod snapshot;
mod write;
mod write_hook;

pub use assignments::Assignments;
pub use cause::Cause;
pub use change::Change;
pub use database::Database;
pub use effect::Effect;
pub use limits::TABLES_MAX;
pub use op::{Action, Op};
pub use outcome::Outcome;
pub use refused_at::RefusedAt;
pub use run::run_ops;
pub use snapshot::Snapshot;
pub use write_hook::WriteHook;
