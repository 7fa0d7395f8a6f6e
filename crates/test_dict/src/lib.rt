//! Tests of the dictionary: each public call with ample memory, from worked examples, and a large one.
#![tactic(auto)]

#[cfg(test)]
mod dict;
