//! Tests of values, rows, trees and filters through their public calls.
#![tactic(auto)]

#[cfg(test)]
mod filters;
#[cfg(test)]
mod refused;
#[cfg(test)]
mod rows;
#[cfg(test)]
mod trees;
#[cfg(test)]
mod values;
