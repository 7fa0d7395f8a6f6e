//! Tests of the top call over shelves and sinks in memory: what no clause says, from worked examples.
#![tactic(auto)]

#[cfg(test)]
mod one_cell;
