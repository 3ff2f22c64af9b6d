//! Days of every year.
//!
//! A period that returns each year may go over the turn of the year, and 29 February is a day of every year in it, also
//! where the year at hand has none.

/// A month and a day of it, in whatever year.
#[derive(Clone, Copy, Debug)]
pub(crate) struct MonthDay {
    pub month: i8,
    pub day: i8,
}

impl MonthDay {
    ghost use Rattle.std.specs.Prelude.{◌≡◌};
    ghost use Rattle.date_display.specs.Days.{is_month_day_up_to, is_in_season};

    /// Whether this day of the year isn't after another.
    pub(crate) fn is_up_to(self, other: MonthDay) -> bool
        ensures { result ≡ is_month_day_up_to self other }
    {
        self.month < other.month || (self.month == other.month && self.day <= other.day)
    }

    /// Whether it lies from a first day of the year to a last, which may be past the turn of the year.
    pub(crate) fn is_in_season(self, first: MonthDay, last: MonthDay) -> bool
        ensures { result ≡ is_in_season first last self }
    {
        if first.is_up_to(last) {
            first.is_up_to(self) && self.is_up_to(last)
        } else {
            first.is_up_to(self) || self.is_up_to(last)
        }
    }
}
