//! Sessions: which rows were touched, their first images, and whether every touch was indirect.
#![tactic(auto)]

mod attached;
mod delta;
mod record;
mod records;
mod records_iter;
mod rule;
mod session;
mod session_change;
mod sessions;
mod tables;
mod touch;

pub use attached::Attached;
pub use delta::Delta;
pub use record::Record;
pub use records::Records;
pub use records_iter::RecordsIter;
pub use rule::AutomaticRule;
pub use session::Session;
pub use session_change::SessionChange;
pub use sessions::Sessions;
