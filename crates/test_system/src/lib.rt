//! Tests of systems: operations, routes and halos of small files, and systems that are too large.
#![tactic(auto)]

#[cfg(test)]
mod making;
#[cfg(test)]
mod matched;
#[cfg(test)]
mod reading;
#[cfg(test)]
mod systems;
#[cfg(test)]
mod weighing;
