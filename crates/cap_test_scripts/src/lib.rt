//! What the laws on faults of lines say of three lines, and the laws of lines of a first line; tests of what a line
//! may go on with.
#![tactic(auto)]

#[cfg(test)]
mod expected;
mod lines;
mod syntax;

pub use lines::{a_begin, is_one_event};
pub use syntax::{a_filter_without_a_session, a_new_session, an_unknown_command};
