//! The calls for C: whole blobs as bytes, an iterator over the changes of one, and clients of a history with
//! their batches, snapshots, rows, transactions and captures. A call answers a status and keeps nothing of the
//! caller's. `include/changecap.h` declares each as C sees it.
#![tactic(auto)]

mod answered;
mod application_calls;
mod application_handle;
mod application_outputs;
mod apply_report;
mod assert_send;
mod batch_handle;
mod batches;
mod blobs;
mod capture_handle;
mod captures;
mod change_info;
mod client_calls;
mod client_handle;
mod concat;
mod decoder_calls;
mod decoder_handle;
mod dumps;
mod fault;
mod held;
mod items;
mod iter_calls;
mod iter_handle;
mod iter_outputs;
mod json_text;
mod numbers;
mod operations;
mod output;
mod parts;
mod rebase;
mod recorded;
mod rows;
mod rows_handle;
mod sessions;
mod snapshot_handle;
mod snapshots;
mod status;
mod tables;
mod transaction_handle;
mod transactions;
