//! Tests of the texts of refusals.
#![tactic(auto)]

#[cfg(test)]
mod refusals;
