//! What the program says and shows beside what `cap_run` does: names for columns, what faults and refusals mean, the
//! lines that are for a shell itself, and how far a run is. No contract says what is printed here; examples do.
#![tactic(auto)]

mod columns;
mod explanations;
mod json_names;
mod progress;
mod refusals;
mod shell_input;
mod sizes;
mod sql_names;
mod text_names;

pub use columns::{OtherWidth, TableColumns, other_width, table_columns};
pub use explanations::{Faults, Language, Replies, explanation};
pub use json_names::named_json;
pub use progress::{Progress, Shown};
pub use shell_input::{Dumps, Loaded, ShellInput};
pub use sizes::with_sizes;
pub use sql_names::named_sql;
pub use text_names::named_text;
