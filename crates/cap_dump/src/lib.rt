//! Tables as a changeset of INSERTs, and the tables and rows that are made of such a changeset.
#![tactic(auto)]

mod dump_bytes;
pub mod laws;
mod limits_kept;
mod load_blob;
mod whole_way;

pub use dump_bytes::{dump, dump_all};
pub use limits_kept::table_has_limits;
pub use load_blob::load;
pub use whole_way::dump_and_load;
