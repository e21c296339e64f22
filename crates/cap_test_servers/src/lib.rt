//! Tests of histories, of the server over them, with real threads, and of what is captured there and applied.
#![tactic(auto)]

#[cfg(test)]
mod applied;
#[cfg(test)]
mod histories;
#[cfg(test)]
mod looks;
#[cfg(test)]
mod overtaken;
#[cfg(test)]
mod replicas;
#[cfg(test)]
mod row_level;
#[cfg(test)]
mod seats;
#[cfg(test)]
mod servers;
