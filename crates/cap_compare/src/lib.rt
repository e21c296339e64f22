//! Comparison of two tables by primary key, and iteration over two trees in step.
#![tactic(auto)]

mod beside;
mod comparison;
mod difference;
pub mod laws;
mod peekable;

pub use beside::Beside;
pub use comparison::compare;
pub use difference::Difference;
pub use peekable::Peekable;
