//! Tests of filters, as tables: what is expected comes from the rules, by hand.
#![tactic(auto)]

#[cfg(test)]
mod cases;
#[cfg(test)]
mod filters;
#[cfg(test)]
mod parts;
#[cfg(test)]
mod setting;
#[cfg(test)]
mod shown;
