//! Numbers in text, read and written.
//!
//! Charts, routes, catalogues and scripts all have numbers in digits. What is a number, and how many digits it may
//! have, is said here for all of them.
#![tactic(auto)]

mod depth;
mod digits;
mod number;
#[cfg(test)]
mod tests;
mod written;

pub use depth::{depths_are_spelled, read_depth};
pub use number::{numbers_are_spelled, read_number, read_signed};
pub use written::{decimals_are_spelled, write_number};
