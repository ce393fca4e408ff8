//! Bytes as hexadecimal text: reading them and writing them.
#![tactic(auto)]

pub mod parse;
pub mod text;
pub mod theorems;
