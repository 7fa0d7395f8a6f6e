//! Calendar dates and times of day, and the seconds between them: three calendars that models run on.
//!
//! A moment is a number of seconds since the beginning of 0001-01-01 in its calendar.
#![tactic(auto)]

mod calendar;
mod common_year;
mod dates;
mod day360;
mod examples;
mod fault;
mod gregorian;
mod moments;
mod reading;
mod times;
mod writing;

pub use calendar::{Cal, end_of};
pub use examples::calendar_examples;
pub use fault::TimeFault;
pub use moments::{moment, parts, text_of};
pub use times::Parts;
