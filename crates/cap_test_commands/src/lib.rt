//! Tests of each command: as a step of the sequential server and as a call of the shared one, with ample
//! memory and with each request for memory refused. Tests of captures in a row, and of the texts of faults.
#![tactic(auto)]

#[cfg(test)]
mod calls;
#[cfg(test)]
mod carried;
#[cfg(test)]
mod faults;
#[cfg(test)]
mod parts;
#[cfg(test)]
mod runs;
#[cfg(test)]
mod steps;
