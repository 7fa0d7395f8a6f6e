//! Tests of sparse weights: files of them, weighted sums, and what PETs need.
#![tactic(auto)]

#[cfg(test)]
mod files;
#[cfg(test)]
mod needs;
#[cfg(test)]
mod sums;
