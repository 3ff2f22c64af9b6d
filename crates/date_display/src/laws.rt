//! What holds of days, of dates' texts and of the charts of days, apart from how they are found.
//!
//! Contracts cite functions. That these are the calendar's rule, and the forms in which attributes give dates, is said
//! here as relations.

ghost use Rattle.std.specs.Prelude.{◌≡◌, ◌↔◌, List, ℕ, Some, ℤ, pos, ◌≤ℤ◌, unsigned_abs, IsTrue};
ghost use Rattle.chart_model.specs.Attrs.{Attrs};
ghost use Rattle.chart_model.specs.Cell.{CellValue};
ghost use Rattle.jiff.specs.Words.{IsDate, days_in_month};
ghost use Rattle.date_display.specs.declared.date.Date.{Date};
ghost use Rattle.date_display.specs.declared.dates.Dates.{Dates};
ghost use Rattle.date_display.specs.Calendar.{IsDay, days_of_month};
ghost use Rattle.date_display.specs.Chart.{IsChartOn, chart_on};
ghost use Rattle.date_display.specs.Shown.{IsShownOn, is_shown_on};
ghost use Rattle.date_display.specs.Texts.{SpellsDay, SpellsDates, date_in, dates_in};

/// The days of each month, and so the days of the calendar, are those of the library that is asked for them.
pub fn calendars_agree()
    ensures months { (year month : ℤ) → pos (days_in_month year (unsigned_abs month)) ≡ days_of_month year month }
    ensures days { (year month day : ℤ) → IsDay year month day ↔ ((pos 1 ≤ℤ year) × IsDate year month day) }
{}

/// The functions that definitions cite give what a text spells, and nothing where it spells nothing.
pub fn dates_are_spelled()
    ensures day { (text : List ℕ) (date : Date) → (date_in text ≡ Some date) ↔ SpellsDay text date }
    ensures dates { (text : List ℕ) (dates : Dates) → (dates_in text ≡ Some dates) ↔ SpellsDates text dates }
{}

/// The function that definitions cite tells whether a feature with these attributes is shown.
pub fn features_are_shown()
    ensures { (day : Date) (attrs : Attrs) → IsTrue (is_shown_on day attrs) ↔ IsShownOn day attrs }
{}

/// The function that definitions cite gives the chart of a day, which is one.
pub fn charts_of_days_are_one()
    ensures there { (day : Date) (cell : CellValue) → IsChartOn cell day (chart_on day cell) }
    ensures one { (day : Date) (cell shown : CellValue) → IsChartOn cell day shown → shown ≡ chart_on day cell }
{}
