//! What pictures are drawn with: colours and symbols, as they are handed in.

use chart_symbols::{Symbol, SymbolMap};
use colour_table::{Colour, ColourMap, colour_in};

/// What pictures are drawn with: colours under their tokens, and symbols under their names.
#[derive(Debug, Drop)]
pub struct Look {
    pub colours: ColourMap,
    pub symbols: SymbolMap,
}

impl Look {
    ghost use Rattle.std.specs.Prelude.{◌≡◌};
    ghost use Rattle.std.specs.Option.{option_copied};
    ghost use Rattle.chart_svg.specs.Look.{colour_of, symbol_of};

    /// The colour under a token, or magenta where there is none. It takes no memory.
    pub fn colour(&self, token: &[u8]) -> Colour
        ensures { result ≡ colour_of self.now token.now }
    {
        colour_in(&self.colours, token)
    }

    /// The symbol under a name, or none. It takes no memory.
    pub fn symbol(&self, name: &[u8]) -> Option<&Symbol>
        ensures { option_copied result ≡ symbol_of self.now name.now }
    {
        self.symbols.get(name)
    }
}
