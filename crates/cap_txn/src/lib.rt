//! Transactions, and the batches that they leave to be committed.
#![tactic(auto)]

mod answered_call;
mod batch;
mod changed;
mod copies;
mod footprint;
mod item;
pub mod laws;
mod limits;
mod ordered_set;
mod read_set;
mod savepoint;
mod txn;
mod workspace;

pub use answered_call::{Answer, AnsweredCall, Asked};
pub use batch::Batch;
pub use copies::copy_of_op;
pub use item::Item;
pub use limits::{OPS_MAX, SAVEPOINTS_MAX};
pub use savepoint::Mark;
pub use txn::Txn;
