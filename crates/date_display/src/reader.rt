//! Texts of dates (S-57 Appendix A, attributes DATSTA, DATEND, PERSTA and PEREND).
//!
//! One attribute may have a date with a year or one of every year, which two hyphens in the place of the year tell
//! apart.

ghost use Rattle.std.specs.Prelude.{◌≡◌, IfSome, Some, option_map};
ghost use Rattle.date_display.specs.declared.date.Date.{Date};
ghost use Rattle.date_display.specs.Days.{date_of};
ghost use Rattle.date_display.specs.Texts.{SpellsDay, date_in, first_of_month_in, dated_in, yearly_in, dates_in};

use crate::date::Date;
use crate::dates::Dates;
use crate::day::Day;
use crate::digits::{read_digits, read_two_digits};
use crate::month_day::MonthDay;

/// A leap year, which has every day of every month.
const LEAP_YEAR: i16 = 2000;

/// The day that a text of eight digits is, `CCYYMMDD`; `None` where the calendar has no such day from the year 1 to
/// the year 9999. It takes no memory.
pub fn read_day(text: &[u8]) -> Option<Day>
    ensures found { IfSome result (λ day. SpellsDay text.now (date_of day)) }
    // No other text is refused.
    ensures only { (date : Date) → SpellsDay text.now date → option_map date_of result ≡ Some date }
    ensures function { option_map date_of result ≡ date_in text.now }
{
    match read_date(text) {
        Some(Date { year, month, day }) => Some(Day { year, month, day }),
        None => None,
    }
}

/// The date that a text of eight digits is.
#[tactic(auto, unfolding(crate::specs::Texts::date_in))]
fn read_date(text: &[u8]) -> Option<Date>
    ensures { result ≡ date_in text.now }
{
    if text.len() != 8 {
        return None;
    }
    let year = read_digits(&text[..4], 4)?;
    let month = read_two_digits(&text[4..6])?;
    let day = read_two_digits(&text[6..])?;
    Date::new(year, month, day)
}

/// The first day of the month that a text of six digits is, `CCYYMM`.
#[tactic(auto, unfolding(crate::specs::Texts::first_of_month_in))]
fn read_month(text: &[u8]) -> Option<Date>
    ensures { result ≡ first_of_month_in text.now }
{
    if text.len() != 6 {
        return None;
    }
    let year = read_digits(&text[..4], 4)?;
    let month = read_two_digits(&text[4..])?;
    Date::new(year, month, 1)
}

/// The days of a date, a month or a year.
#[tactic(auto, unfolding(crate::specs::Texts::dated_in))]
fn read_dated(text: &[u8]) -> Option<Dates>
    ensures { result ≡ dated_in text.now }
{
    match text.len() {
        8 => {
            let date = read_date(text)?;
            Some(Dates::Dated {
                first: date,
                last: date,
            })
        }
        6 => {
            let first = read_month(text)?;
            let last = first.last_of_month();
            Some(Dates::Dated { first, last })
        }
        _ => {
            let year = read_digits(text, 4)?;
            let first = Date::new(year, 1, 1)?;
            let last = Date::new(year, 12, 31)?;
            Some(Dates::Dated { first, last })
        }
    }
}

/// The days of a day or a month of every year, of what stands behind `--`.
#[tactic(auto, unfolding(crate::specs::Texts::yearly_in))]
fn read_yearly(text: &[u8]) -> Option<Dates>
    ensures { result ≡ yearly_in text.now }
{
    if text.len() == 4 {
        let month = read_two_digits(&text[..2])?;
        let day = read_two_digits(&text[2..])?;
        let day = Date::new(LEAP_YEAR, month, day)?.month_day();
        return Some(Dates::Yearly {
            first: day,
            last: day,
        });
    }
    let month = read_two_digits(text)?;
    let first = Date::new(LEAP_YEAR, month, 1)?.month_day();
    let last = MonthDay { month, day: 31 };
    Some(Dates::Yearly { first, last })
}

/// What a text of dates names: `None` where it is in none of the forms. It takes no memory.
#[tactic(auto, unfolding(crate::specs::Texts::dates_in))]
pub(crate) fn read_dates(text: &[u8]) -> Option<Dates>
    ensures function { result ≡ dates_in text.now }
{
    match text {
        [b'-', b'-', yearly @ ..] => read_yearly(yearly),
        _ => read_dated(text),
    }
}
