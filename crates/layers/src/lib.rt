//! Stores over a store: one without some of its triples, one with the inverse of a property.
#![tactic(auto)]

pub mod inverse;
pub mod inverse_store;
mod inverting;
mod members;
pub mod theorems;
mod triple_set;
mod turn;
mod turning;
mod withdrawing;
pub mod withdrawn;
pub mod withdrawn_store;
