//! A change's whole way: from a call on a server that threads share to the rows of another database.
#![tactic(auto)]

mod replication;

pub use replication::{Form, NotReplicated, replicate};
