//! Tests of clients of one history, of connections to it, of iterators over blobs and of blobs in pieces, as a
//! library in Rust has them, and of the records that they take.
#![tactic(auto)]

#[cfg(test)]
mod applications;
#[cfg(test)]
mod blobs;
#[cfg(test)]
mod calls;
#[cfg(test)]
mod captures;
#[cfg(test)]
mod histories;
#[cfg(test)]
mod hubs;
#[cfg(test)]
mod quiet;
#[cfg(test)]
mod records;
#[cfg(test)]
mod rows;
#[cfg(test)]
mod texts;
