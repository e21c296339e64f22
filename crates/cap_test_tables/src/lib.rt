//! Tests of tables, transactions and comparisons through their public calls.
#![tactic(auto)]

#[cfg(test)]
mod comparisons;
#[cfg(test)]
mod rows;
#[cfg(test)]
mod tables;
#[cfg(test)]
mod transactions;
