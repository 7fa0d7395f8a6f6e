//! Tests of the build: files that are accepted, each refusal, two faults at once, weights from further files, limits, and
//! shelves whose loads fail.
#![tactic(auto)]

#[cfg(test)]
mod alone;
#[cfg(test)]
mod builds;
#[cfg(test)]
mod competing;
#[cfg(test)]
mod edits;
#[cfg(test)]
mod limits;
#[cfg(test)]
mod loads;
#[cfg(test)]
mod shown;
