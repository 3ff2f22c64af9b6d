//! The symbols of pictures, as data.
//!
//! They are path data of this project's own, under the names by which its procedures call symbols: thin lines in
//! relative commands of SVG, from the symbol's place on. A unit is one of the picture; no symbol is more than 30 units
//! wide. What is drawn of a depth is put together from its digits, each a symbol of its own.
#![tactic(auto)]

mod digits;
mod laws;
mod marks;
mod symbol;
mod table;
#[cfg(test)]
mod tests;

pub use laws::symbols_are_sound;
pub use symbol::{Symbol, SymbolMap};
pub use table::symbols;
