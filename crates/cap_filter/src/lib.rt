//! Filters on table names, and their text.
#![tactic(auto)]

mod filter;
pub mod laws;
mod limits;
mod reading;
mod table_filter;
mod token;
mod word;

pub use filter::{Filter, write_quoted};
pub use limits::{DEPTH_MAX, NODES_MAX};
pub use table_filter::TableFilter;
pub use token::{after, is_word_byte, split_at_quote, word_len};
pub use word::Word;
