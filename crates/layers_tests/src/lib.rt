//! Tests of layers over stores, as tables: what is expected comes from the rules, by hand or by loops over
//! lists.
#![tactic(auto)]

#[cfg(test)]
mod agreeing;
#[cfg(test)]
mod inverses;
#[cfg(test)]
mod plain;
#[cfg(test)]
mod stacks;
#[cfg(test)]
mod stores;
#[cfg(test)]
mod withdrawals;
