//! Stores, selectors, numbers and plain answers that the tests of stores share.
#![tactic(auto)]

pub mod lists;
pub mod numbers;
pub mod plain;
