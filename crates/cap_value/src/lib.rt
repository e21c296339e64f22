//! The values that rows are made of, the names of tables, their orders, and why a call is refused.
#![tactic(auto)]

mod blob;
mod exact;
mod limits;
mod memory;
mod name;
mod refusal;
mod text;
mod value;

pub use blob::Blob;
pub use exact::Exact;
pub use limits::{NAME_BYTES_MAX, VALUE_BYTES_MAX};
pub use memory::{AllocHandle, Fault, OutOfMemory};
pub use name::Name;
pub use refusal::Refusal;
pub use text::Text;
pub use value::Value;
