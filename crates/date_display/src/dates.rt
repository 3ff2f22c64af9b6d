//! What a text of dates bounds.
//!
//! A date may leave out its day, or its month too, and then stands for a whole month or year: as a start it is the
//! first of these days, and as an end the last.

use crate::date::Date;
use crate::month_day::MonthDay;

/// The first and the last day that a text of dates names.
#[derive(Clone, Copy, Debug)]
pub(crate) enum Dates {
    /// Of a date, of a month or of a year.
    Dated { first: Date, last: Date },
    /// Of a day or of a month of every year.
    Yearly { first: MonthDay, last: MonthDay },
}
