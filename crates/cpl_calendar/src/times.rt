//! A date with a time of day, in its parts.

/// The parts of a date and a time of day.
#[derive(Clone, Copy, Debug, PartialEq, Eq)]
pub struct Parts {
    /// From 1 to 9999 in a calendar.
    pub year: u16,
    /// From 1 for January to 12.
    pub month: u8,
    /// From 1 to the length of the month.
    pub day: u8,
    /// From 0 to 23.
    pub hour: u8,
    /// From 0 to 59.
    pub minute: u8,
    /// From 0 to 59: there are no leap seconds.
    pub second: u8,
}
