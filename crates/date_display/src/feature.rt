//! The days on which a feature is shown.
//!
//! A feature may have a period of years and one that returns each year, and has to be within both. What can't be read
//! bounds nothing: a feature is rather shown too long than hidden.

ghost use Rattle.std.specs.Prelude.{◌≡◌, ◌↔◌, IsTrue};
ghost use Rattle.date_display.specs.Days.{date_of};
ghost use Rattle.date_display.specs.Shown.{IsShownOn, dates_at, is_begun, is_not_over, is_in_period, is_shown_on};

use crate::date::Date;
use crate::dates::Dates;
use crate::day::Day;
use crate::reader::read_dates;
use chart_model::{AttrMap, Feature};

/// The code of DATEND, the end of the time in which a feature is there.
const DATEND: u16 = 85;

/// The code of DATSTA, the start of the time in which a feature is there.
const DATSTA: u16 = 86;

/// The code of PEREND, the end of its period.
const PEREND: u16 = 118;

/// The code of PERSTA, the start of the period in which a feature is there.
const PERSTA: u16 = 119;

/// What an attribute of dates names.
fn dates_at(attrs: &AttrMap, code: u16) -> Option<Dates>
    ensures { result ≡ dates_at attrs.now code }
{
    let text = attrs.get(code)?;
    read_dates(text.as_slice())
}

/// Whether the day isn't before the first of a date, a month or a year.
fn is_begun(start: Option<Dates>, day: Date) -> bool
    ensures { result ≡ is_begun start day }
{
    match start {
        Some(Dates::Dated { first, .. }) => first.is_up_to(day),
        _ => true,
    }
}

/// Whether the day isn't after the last of a date, a month or a year.
fn is_not_over(end: Option<Dates>, day: Date) -> bool
    ensures { result ≡ is_not_over end day }
{
    match end {
        Some(Dates::Dated { last, .. }) => day.is_up_to(last),
        _ => true,
    }
}

/// Whether the day lies in the period of every year, where both of its ends are days of every year.
fn is_in_period(start: Option<Dates>, end: Option<Dates>, day: Date) -> bool
    ensures { result ≡ is_in_period start end day }
{
    match (start, end) {
        (Some(Dates::Yearly { first, .. }), Some(Dates::Yearly { last, .. })) => {
            day.month_day().is_in_season(first, last)
        }
        _ => true,
    }
}

/// Whether a feature with these attributes is shown.
#[tactic(auto, unfolding(crate::specs::Shown::is_shown_on))]
fn is_shown_on(attrs: &AttrMap, day: Date) -> bool
    ensures { result ≡ is_shown_on day attrs.now }
{
    let start = dates_at(attrs, PERSTA);
    let end = dates_at(attrs, PEREND);
    is_begun(dates_at(attrs, DATSTA), day)
        && is_not_over(dates_at(attrs, DATEND), day)
        && is_begun(start, day)
        && is_not_over(end, day)
        && is_in_period(start, end, day)
}

/// Whether a feature is shown on a day, by its attributes DATSTA, DATEND, PERSTA and PEREND. It takes no memory.
pub fn shown_on(feature: &Feature, day: Day) -> bool
    ensures exact { IsTrue result ↔ IsShownOn (date_of day) feature.now.attrs }
    ensures function { result ≡ is_shown_on (date_of day) feature.now.attrs }
{
    is_shown_on(&feature.attrs, day.date())
}
