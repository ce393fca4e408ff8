//! Tests of coded queries, as tables: what each byte string is comes from the format, not from the reader.
#![tactic(auto)]

#[cfg(test)]
mod cases;
#[cfg(test)]
mod damaged;
#[cfg(test)]
mod large;
#[cfg(test)]
mod tables;
#[cfg(test)]
mod written;
