//! Tables: rows under their primary keys, and rows without a key under ids.
#![tactic(auto)]

mod change_fault;
mod changes_in_place;
mod hooked;
mod keyed_rows;
pub mod laws;
mod limits;
mod replaced;
mod row_name;
mod row_ref;
mod row_rule;
mod rows;
mod scan;
mod table;

pub use change_fault::ChangeFault;
pub use limits::ROW_IDS_END;
pub use replaced::Replaced;
pub use row_name::RowName;
pub use row_ref::RowRef;
pub use rows::Rows;
pub use scan::Scan;
pub use table::Table;
