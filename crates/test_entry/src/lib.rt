//! Tests of native entries: entries that are found and called, and labels that stand twice.
#![tactic(auto)]

#[cfg(test)]
mod calls;
#[cfg(test)]
mod labels;
