//! Grammars, and the tokens of a line read by them.
#![tactic(auto)]

mod cursor;
mod fault;
mod literals;
mod token;

pub use cursor::{Cursor, Word};
pub use fault::LineFault;
pub use literals::{name, row, value, values};
pub use token::after_blanks;
