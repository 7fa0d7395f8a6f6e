//! Tests of the generator of configurations: the texts of seeds, by their digests and the lines that have numbers.
#![tactic(auto)]

#[cfg(test)]
mod texts;
