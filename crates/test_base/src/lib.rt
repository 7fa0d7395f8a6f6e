//! Tests of the parts: each public call once with ample memory, from worked examples.
#![tactic(auto)]

#[cfg(test)]
mod base;
#[cfg(test)]
mod rounding;
