//! Schemas, rows and primary keys.
#![tactic(auto)]

mod key;
mod limits;
mod row;
mod row_builder;
mod row_fields;
mod schema;
mod update;

pub use key::{Key, KeyValues, key_of};
pub use limits::COLUMNS_MAX;
pub use row::Row;
pub use row_builder::RowBuilder;
pub use row_fields::RowFields;
pub use schema::Schema;
pub use update::are_columns;
