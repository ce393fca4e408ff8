//! Tests of numbers in seven-bit groups, as tables: the bytes are the format's own.
#![tactic(auto)]

#[cfg(test)]
mod reading;
#[cfg(test)]
mod writing;
