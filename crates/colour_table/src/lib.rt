//! Colours under their tokens, as a file of lines has them.
//!
//! A line (`text_lines`) that says something is `TOKEN RED GREEN BLUE`, four words parted by single spaces. TOKEN is
//! one to eight bytes of `A` to `Z` and `0` to `9`, as the tokens of IHO S-52 are; the others are numbers from 0 to 255
//! in up to 18 digits.
//!
//! Any other line is bad. So is each line behind the 1,000th, whatever it holds. No token stands twice. The first line
//! with a fault is answered.
#![tactic(auto)]

mod fault;
mod laws;
mod named;
mod read;
mod swatch;
#[cfg(test)]
mod tests;
mod token;
mod under;

pub use fault::ColoursFault;
pub use laws::colours_are_read;
pub use named::NamedMap;
pub use read::read_colours;
pub use swatch::{Colour, ColourTable, Swatch};
pub use under::{ColourMap, colour_in, colour_under, colours_by_token};
