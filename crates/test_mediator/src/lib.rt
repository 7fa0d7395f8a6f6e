//! Tests of mediators: averages over time, and merges.
#![tactic(auto)]

#[cfg(test)]
mod averages;
#[cfg(test)]
mod merges;
