//! Why a call says no: the refusals with their published numbers, and the place that each names.
#![tactic(auto)]

pub mod declined;
pub mod refusal;
pub mod rejection;
