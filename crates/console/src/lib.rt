//! What the console does with queries: the words and numbers of a line, the commands, the session that
//! carries them out, and its answers.
#![tactic(auto)]

pub mod answer;
pub mod command;
pub mod expected;
pub mod failure;
mod filter;
pub mod line;
mod listing;
pub mod number;
pub mod reply;
pub mod session;
