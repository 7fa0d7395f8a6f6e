//! Tests of components: files that differ from an accepted one by a few lines, with the answers that they must
//! have; what is read of a model and of a mediator; and large files.
#![tactic(auto)]

#[cfg(test)]
mod calls;
#[cfg(test)]
mod coupled;
#[cfg(test)]
mod fields;
#[cfg(test)]
mod files;
#[cfg(test)]
mod formulas;
#[cfg(test)]
mod layouts;
#[cfg(test)]
mod limits;
#[cfg(test)]
mod names;
#[cfg(test)]
mod orders;
#[cfg(test)]
mod parts;
#[cfg(test)]
mod phases;
#[cfg(test)]
mod reading;
#[cfg(test)]
mod rows;
#[cfg(test)]
mod shown;
#[cfg(test)]
mod sizes;
