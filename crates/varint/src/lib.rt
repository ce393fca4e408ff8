//! Numbers in seven-bit groups: reading and writing them at a place of a byte string.
#![tactic(auto)]

pub mod number;
pub mod read;
pub mod theorems;
pub mod write;
