//! Tests of matching: which exports feed which imports, and the order of initialisation.
#![tactic(auto)]

#[cfg(test)]
mod matching;
#[cfg(test)]
mod order;
