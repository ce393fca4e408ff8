//! Tests of row stores and property stores, as tables: what is expected comes from the rules, by hand.
#![tactic(auto)]

#[cfg(test)]
mod asking;
#[cfg(test)]
mod bare;
#[cfg(test)]
mod limits;
#[cfg(test)]
mod row_loading;
#[cfg(test)]
mod table_loading;
