//! The lines of a text file, and the parts of a line.
//!
//! A line ends with a line feed (0x0A), the last perhaps without one. A carriage return (0x0D) before a line feed is
//! removed, and only one. Lines are counted from 1. An empty line and one that begins with `#` count and say nothing.
//!
//! The files of catalogues, tables and routes are read line by line by these rules, and their lines and those of a
//! script word by word; what a line may say is for each reader to state. The definitions have what they share: the
//! first fault among lines (`Reading`).
#![tactic(auto)]

mod fault;
mod line;
mod numbered;
mod parts;
#[cfg(test)]
mod tests;
mod words;

pub use fault::first_faults_are_found;
pub use line::{cut_line, is_silent, without_carriage_return};
pub use numbered::{NumberedLines, numbered_lines};
pub use parts::{Parts, cut_part, parts_are_joined, parts_of};
pub use words::{Words, read_words};
