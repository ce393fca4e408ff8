//! The truth of a filter on a row: true, false or error.
#![tactic(auto)]

mod comparisons;
mod evaluate;
pub mod parts;
mod row;
mod term;
pub mod theorems;
pub mod truth;
