//! Runs lines one after the other: on the sequential server, and in the transaction or the application that is open.
#![tactic(auto)]

mod application;
mod applying;
mod calls;
mod commands;
mod held;
mod interpreter;
pub mod laws;
mod lines;
mod printed;

pub use interpreter::Interpreter;
