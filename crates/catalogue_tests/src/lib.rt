//! Tests of catalogues, as tables: what is expected comes from the rules, by hand.
#![tactic(auto)]

#[cfg(test)]
mod loading;
#[cfg(test)]
mod lookups;
