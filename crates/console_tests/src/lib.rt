//! Tests of the console's library: lines with their answers, expected by hand from the documented commands.
#![tactic(auto)]

#[cfg(test)]
mod lines;
