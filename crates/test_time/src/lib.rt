//! Tests of calendars, clocks and alarms, over their libraries.
#![tactic(auto)]

#[cfg(test)]
mod calendar;
#[cfg(test)]
mod clock;
