//! Triples of term numbers, what a store of them means, and two kinds of store.
#![tactic(auto)]

pub mod ascent;
mod element;
pub mod entry;
pub mod matches;
pub mod pair;
pub mod position;
pub mod property_load;
pub mod property_seek;
pub mod property_store;
pub mod row_load;
pub mod row_seek;
pub mod row_store;
mod run;
pub mod selector;
pub mod store;
pub mod succession;
mod table;
pub mod text;
pub mod theorems;
pub mod triple;
pub mod union;
