//! Definitions of `specs/`, evaluated on examples.

ghost use Rattle.cpl_calendar.specs.Examples.{CalendarExamples};

/// The definitions of calendars, of the parts of moments and of the texts of times, evaluated on examples.
pub fn calendar_examples()
    ensures { CalendarExamples }
{}
