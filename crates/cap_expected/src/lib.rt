//! What a line of a workload may go on with, where it has a fault of syntax.
#![tactic(auto)]

mod expected;

pub use expected::print_expected;
