//! A symbol.

use chart_model::{Octets, Sequence, Shared};
use colour_table::{Colour, NamedMap};

/// What a symbol looks like.
#[derive(Debug, Drop)]
pub struct Symbol {
    /// Path data of SVG from the symbol's place on, in relative commands, as `m-4,0l8,0`. All that draw the symbol
    /// share it.
    pub path: Shared<Octets>,
    pub colour: Colour,
}

/// Symbols with their names, as `WRECKS05`, in order.
pub(crate) type SymbolList = Sequence<(Octets, Symbol)>;

/// Symbols under their names.
pub type SymbolMap = NamedMap<Symbol>;
