//! Which features of a chart are shown on a day, by the dates that their attributes give.
#![tactic(auto)]

mod chart;
mod date;
mod dates;
mod day;
mod digits;
mod feature;
mod laws;
mod month_day;
mod reader;

pub use chart::visible;
pub use day::Day;
pub use feature::shown_on;
pub use laws::{calendars_agree, charts_of_days_are_one, dates_are_spelled, features_are_shown};
pub use reader::read_day;
