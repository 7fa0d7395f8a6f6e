//! Tests of what a resource file says before its components: small files with their answers, the order in which
//! faults are found, limits, large files, and a caller that uses what is promised.
#![tactic(auto)]

#[cfg(test)]
mod caller;
#[cfg(test)]
mod files;
#[cfg(test)]
mod heads;
#[cfg(test)]
mod numbered;
#[cfg(test)]
mod shown;
#[cfg(test)]
mod tables;
