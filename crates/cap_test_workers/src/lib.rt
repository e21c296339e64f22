//! Tests of workloads on threads, and of runs that meet refused memory.
#![tactic(auto)]

#[cfg(test)]
mod memory;
#[cfg(test)]
mod rows;
#[cfg(test)]
mod workers;
