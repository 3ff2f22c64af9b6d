//! Dates by their numbers.
//!
//! Which days a month has is `jiff`'s to say, and that these are those of the calendar's rule is a law of this crate.

ghost use Rattle.std.specs.Prelude.{◌≡◌};
ghost use Rattle.date_display.specs.Calendar.{IsDay};
ghost use Rattle.date_display.specs.Days.{date_if, last_of_month, month_day_of, is_up_to};

use crate::month_day::MonthDay;
use jiff::civil;

/// A year, a month and a day of it, which the calendar need not have.
#[derive(Clone, Copy, Debug)]
pub(crate) struct Date {
    pub year: i16,
    pub month: i8,
    pub day: i8,
}

impl Date {
    /// The date with these parts, if the calendar has it, from the year 1 on.
    pub(crate) fn new(year: i16, month: i8, day: i8) -> Option<Date>
        ensures { result ≡ date_if year month day }
    {
        if year < 1 {
            return None;
        }
        match civil::Date::new(year, month, day) {
            Ok(_) => Some(Date { year, month, day }),
            Err(_) => None,
        }
    }

    /// The last day of the month.
    pub(crate) fn last_of_month(self) -> Date
        requires { IsDay self.year self.month self.day }
        ensures { result ≡ last_of_month self }
    {
        let day = civil::date(self.year, self.month, self.day).days_in_month();
        Date {
            year: self.year,
            month: self.month,
            day,
        }
    }

    /// The month and the day of it.
    pub(crate) fn month_day(self) -> MonthDay
        ensures { result ≡ month_day_of self }
    {
        MonthDay {
            month: self.month,
            day: self.day,
        }
    }

    /// Whether this date isn't after another.
    pub(crate) fn is_up_to(self, other: Date) -> bool
        ensures { result ≡ is_up_to self other }
    {
        self.year < other.year
            || (self.year == other.year && self.month_day().is_up_to(other.month_day()))
    }
}
