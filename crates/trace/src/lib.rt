//! What a store's triples tell: those that match a selector, and the terms that a term reaches.
#![tactic(auto)]

mod level;
pub mod scan;
pub mod trace;
mod visit;
