//! Runs a workload: reads its text, calls a server with its commands, and prints the replies. Also runs a
//! shell, shows a changeset or patchset, makes the inverse or the patchset of a changeset, concatenates
//! blobs, and rebases a changeset.
#![tactic(auto)]

mod blob_list;
mod block;
mod combine;
mod conversion;
mod convert;
mod encoding;
mod fault;
mod gate;
mod input;
mod limits;
mod meeting;
mod output;
mod pace;
mod pieces;
mod run;
mod shell;
mod show;
mod unread;
mod worker;
mod workload;

pub use cap_replies::ReplyForm;
pub use combine::combine_blobs;
pub use conversion::{Combination, CombinationKind, Conversion};
pub use convert::convert_blob;
pub use encoding::Encoding;
pub use fault::{BlobListFault, ListedFault, RunFault};
pub use gate::{Gate, NoGate};
pub use limits::THREADS_MAX;
pub use pace::Pace;
pub use run::run_core;
pub use shell::run_shell;
pub use show::{Form, show_blob};
pub use workload::run_workload;
