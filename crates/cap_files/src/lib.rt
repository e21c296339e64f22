//! The blobs in files: hex digits or bytes, how many changes they have, the bytes around a fault, and the
//! lines that make what a dump has.
#![tactic(auto)]

mod blob_file;
mod counts;
mod load;
mod place;

pub use blob_file::{FileBlob, FileForm, TextFault, file_blob, file_text};
pub use counts::summary;
pub use load::{CreatedTable, LoadFault, load_lines};
pub use place::around;
