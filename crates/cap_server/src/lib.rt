//! The server that threads share: each call is one event of one history.
#![tactic(auto)]

mod closed;
mod fault;
mod front;
mod handed_back;
mod list;
mod locked;
mod naming;
mod seat;
mod server;

pub use closed::Closed;
pub use fault::CloseFault;
pub use front::Front;
pub use list::{List, one_begins_the_other};
pub use locked::Locked;
pub use naming::{Naming, named};
pub use seat::Seat;
pub use server::Server;
