//! An applier that stops at each conflict, which its caller answers.
#![tactic(auto)]

mod application;
mod applier;
mod chosen;
pub mod laws;
mod looked;
mod merge;
mod numbering;
mod passed;
mod progress;
mod row_conflict;
mod transaction;

pub use applier::Applier;
pub use chosen::{Chosen, chosen_of};
pub use merge::MergeRefusal;
pub use numbering::Numbering;
pub use passed::Passed;
pub use row_conflict::RowConflict;
