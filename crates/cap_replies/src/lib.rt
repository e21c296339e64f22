//! The lines of a workload with their numbers, and the reply to each as text or as JSON.
#![tactic(auto)]

mod lists;
mod members;
mod numbers;
mod outcome;
mod outcome_json;
mod printer;
mod reply_json;
mod report;
mod rows;
mod run_line;
mod run_lines;
mod stop;
mod stop_json;
mod text_line;

pub use outcome::{Outcome, write_outcome};
pub use printer::{Printer, append_made};
pub use reply_json::print_reply_json;
pub use run_line::{ReplyForm, RunLine, write_run_reply};
pub use run_lines::RunLines;
pub use stop::write_stop;
pub use text_line::first_line;
