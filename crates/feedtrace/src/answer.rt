//! What the console answers.
use crate::outcome::Outcome;

/// The answer to a line.
#[derive(Drop)]
pub enum Answer {
    /// To a command about queries.
    Query(console::answer::Answer),
    /// What the task came to.
    Task(Outcome),
}
