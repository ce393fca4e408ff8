//! What the answers of a query are, in which order they come, and the walk that lists them: definitions, and
//! what is proved of them.
#![tactic(auto)]

pub mod theorems;
