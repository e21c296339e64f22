//! What crosses from other languages as bytes: names of tables, and rows, keys and new values as records.
//! Operations are made of them for batches and transactions, and rows are read of snapshots and transactions.
#![tactic(auto)]

mod arguments;
mod batches;
mod fault;
mod items;
mod names;
mod ops;
mod reading;
mod reads;
mod record;
mod rows;
mod transactions;
mod with_ids;
mod writing;

pub use batches::{has_all_ops, put_op};
pub use fault::RecordFault;
pub use items::{ItemKind, item_at, item_id, item_key, item_kind, item_table};
pub use names::name_text;
pub use ops::{delete_op, insert_op, update_op};
pub use reads::{get, scan, scan_from};
pub use record::{record_of_key, record_of_row, row_of};
pub use rows::RowCursor;
pub use transactions::{txn_get, txn_op, txn_scan};
