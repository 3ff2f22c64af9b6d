//! Days of the calendar.
//!
//! Days are compared and never counted, so year, month and day in this order are all that a day is.

ghost use Rattle.date_display.specs.Calendar.{IsDay};

use crate::date::Date;

/// A day of the calendar, from 0001-01-01 to 9999-12-31.
#[derive(Clone, Copy, Debug)]
pub struct Day {
    pub year: i16,
    /// From 1 to 12.
    pub month: i8,
    /// From 1 to the last of the month.
    pub day: i8,
    pub ghost exists: { IsDay year month day },
}

impl Day {
    ghost use Rattle.std.specs.Prelude.{◌≡◌};
    ghost use Rattle.date_display.specs.Days.{date_of};

    /// Its numbers alone.
    pub(crate) fn date(self) -> Date
        ensures { result ≡ date_of self }
    {
        Date {
            year: self.year,
            month: self.month,
            day: self.day,
        }
    }
}
