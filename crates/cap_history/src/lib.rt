//! The one history that all threads share: the front word counts its events; each caller has seen a prefix of
//! it.
#![tactic(auto)]

mod front;
mod law;
mod list;
mod opened;
mod overtaken;
mod seat;

pub use front::Front;
pub use law::Law;
pub use list::{List, one_begins_the_other};
pub use opened::Opened;
pub use overtaken::Overtaken;
pub use seat::Seat;
