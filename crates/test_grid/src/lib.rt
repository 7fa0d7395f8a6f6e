//! Tests of grids and of their division among PETs.
#![tactic(auto)]

#[cfg(test)]
mod grid;
