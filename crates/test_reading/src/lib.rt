//! Tests of reading a resource file: its lines and words, and its items.
#![tactic(auto)]

#[cfg(test)]
mod items;
#[cfg(test)]
mod lines;
#[cfg(test)]
mod sequence;
