//! Tests of formulas: texts with the trees or faults that they must give, texts at the ends of what is
//! allowed, long ones and one of many reads, words as arguments, lists of names with empty ones, and values
//! worked by hand.
#![tactic(auto)]

#[cfg(test)]
mod arguments;
#[cfg(test)]
mod caller;
#[cfg(test)]
mod depths;
#[cfg(test)]
mod long;
#[cfg(test)]
mod many;
#[cfg(test)]
mod places;
#[cfg(test)]
mod reading;
#[cfg(test)]
mod shown;
#[cfg(test)]
mod texts;
#[cfg(test)]
mod values;
