//! Why a text is no time of a calendar.

/// Why a text is no time of a calendar: the first of these that holds.
#[derive(Clone, Copy, Debug, PartialEq, Eq)]
pub enum TimeFault {
    /// It isn't of the form `YYYY-MM-DDThh:mm:ss`, or a month, an hour, a minute or a second is out of its range.
    BadTime,
    /// The year is 0: calendars begin with the year 1.
    YearRange,
    /// The month has no such day.
    NoSuchDay,
}
