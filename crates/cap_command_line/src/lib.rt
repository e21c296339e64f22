//! The command line of the program.
#![tactic(auto)]

mod command_line;
mod help;
mod program_options;

pub use command_line::options;
pub use help::LANGUAGE;
pub use program_options::{Asked, Manner, Options, OptionsFault};
