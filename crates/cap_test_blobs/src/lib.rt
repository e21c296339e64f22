//! Tests of change lists and of their bytes through their public calls.
#![tactic(auto)]

#[cfg(test)]
mod blobs;
#[cfg(test)]
mod blobs_of_sqlite;
#[cfg(test)]
mod changes;
#[cfg(test)]
mod known;
#[cfg(test)]
mod made;
#[cfg(test)]
mod refused;
#[cfg(test)]
mod streams;
#[cfg(test)]
mod sweep;
