//! The words of the command line: the files that the program is given, what the mariner sets, and the day.
//!
//! They are read as one simple command of `clap`; each value is then read as a number in its range, or as a day.
#![tactic(auto)]

mod command;
mod fault;
mod laws;
mod numbers;
mod reading;
#[cfg(test)]
mod tests;
mod values;

pub use fault::WordsFault;
pub use laws::{
    days_are_set, defaults_stand_alone, depths_are_set, looks_are_set, numbers_are_spelled,
    other_words_are_refused, settings_are_in_their_ranges,
};
pub use numbers::number_within;
pub use reading::{Words, read_words};
pub use values::{settings, text_of};
