//! Tests of the command line, of shells, of blobs that are shown, converted, concatenated or rebased in
//! refused memory, and of streams that fail.
#![tactic(auto)]

#[cfg(test)]
mod memory;
#[cfg(test)]
mod options;
#[cfg(test)]
mod rows;
#[cfg(test)]
mod shell;
#[cfg(test)]
mod streams;
#[cfg(test)]
mod watched;
