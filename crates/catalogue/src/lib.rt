//! Catalogues: a kind and a value for each term number, listed or computed from the number.
#![tactic(auto)]

pub mod catalogue;
pub mod inline;
pub mod kind;
pub mod listed;
mod load;
pub mod lookup;
pub mod record;
