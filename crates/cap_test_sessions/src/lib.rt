//! Tests of sessions, of blobs that are applied, of dumps, of changegroups, of rebasing and of synchronising, through
//! their public calls; and an application that stops at conflicts, answered as a policy answers.
#![tactic(auto)]

mod answered;
#[cfg(test)]
mod applier;
#[cfg(test)]
mod blobs;
#[cfg(test)]
mod buffers;
#[cfg(test)]
mod captures;
#[cfg(test)]
mod changesets;
#[cfg(test)]
mod conflicts;
#[cfg(test)]
mod convergence;
#[cfg(test)]
mod dumps;
#[cfg(test)]
mod groups;
#[cfg(test)]
mod memory;
#[cfg(test)]
mod recorded;
#[cfg(test)]
mod sessions;
#[cfg(test)]
mod synchronised;

pub use answered::answered_by_a_policy;
