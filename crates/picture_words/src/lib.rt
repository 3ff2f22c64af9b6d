//! The words of the command line of `chart_picture`: the files that it is given, what the mariner sets, and what the
//! picture shows.
//!
//! They are read as one command of `clap`, which also answers `--help` and `--version`. The settings are those of
//! `command_words`. The definition, `words_of`, cites `clap`'s own of a simple command, and the laws say in few words
//! what words say.
#![tactic(auto)]

mod command;
mod end;
mod laws;
mod marked;
mod reading;
#[cfg(test)]
mod tests;

pub use end::WordsEnd;
pub use laws::{
    defaults_stand_alone, other_words_are_refused, texts_are_asked_for, what_is_shown_is_set,
};
pub use reading::{PictureWords, read_picture_words};
