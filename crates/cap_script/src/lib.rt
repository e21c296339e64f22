//! The text of workloads and of their replies: one command a line, and one line or more a reply.
#![tactic(auto)]

mod buffer_text;
mod command;
mod fault;
mod fault_text;
pub mod laws;
mod line;
mod lines;
mod list_text;
mod one_line;
mod operation;
mod refusal_text;
mod reply;
mod report_text;
mod rest;
mod row_text;
mod session_command;
mod step;
mod step_text;
mod stop_text;
mod words;
mod workload;

pub use command::{COMMAND_WORDS, Filtering, Spelled};
pub use fault::ScriptFault;
pub use fault_text::print_fault;
pub use line::{Detail, Line, Show};
pub use lines::Lines;
pub use list_text::columns_text;
pub use one_line::read_line;
pub use refusal_text::refusal_name;
pub use reply::{place_in, print_reply, write_reply};
pub use step::Step;
pub use step_text::print_answer;
pub use stop_text::print_stop;
pub use words::{answer_word, kind_word};
pub use workload::{Workload, parse};
