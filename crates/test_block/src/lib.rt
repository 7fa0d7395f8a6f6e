//! Tests of blocks with a ring of places around them.
#![tactic(auto)]

#[cfg(test)]
mod blocks;
