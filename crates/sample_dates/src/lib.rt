//! Tests of the days on which features are shown, and of the charts of days.
//!
//! The days of `date_display` are compared with a calendar on paper, its features with periods worked out by hand, and
//! its charts with those of the rows that are shown (`sample_rows`). `date_display` has no tests of its own, since it
//! would be proved again for them; this crate is tests alone, and is proved once.
#![tactic(auto)]

#[cfg(test)]
mod tests;
