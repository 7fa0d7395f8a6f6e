//! Tests of fields and of sweeps over them.
#![tactic(auto)]

#[cfg(test)]
mod fields;
#[cfg(test)]
mod sweeps;
