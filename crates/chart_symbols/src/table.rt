//! All symbols that there are.

ghost use Rattle.std.specs.Prelude.{◌≡◌, IfOk};
ghost use Rattle.chart_symbols.specs.Table.{named_by, symbols_by};

use crate::digits::{PLACES, push_places};
use crate::marks::{MARKS, push_marks};
use crate::symbol::{SymbolList, SymbolMap};
use colour_table::{NamedMap, Swatch};
use std::alloc::{AllocError, Global};

/// All symbols with their names: the digits of depths, and then the others.
fn named(alloc: Global, colours: &[Swatch]) -> Result<SymbolList, AllocError>
    ensures { IfOk result (λ symbols. symbols ≡ named_by colours.now) }
{
    let mut symbols = SymbolList::new(alloc);
    push_places(alloc, &mut symbols, colours, &PLACES)?;
    push_marks(alloc, &mut symbols, colours, &MARKS)?;
    Ok(symbols)
}

/// All symbols that there are under their names, each in the colour under its token.
pub fn symbols(alloc: Global, colours: &[Swatch]) -> Result<SymbolMap, AllocError>
    ensures { IfOk result (λ symbols. symbols ≡ symbols_by colours.now) }
{
    NamedMap::of(alloc, named(alloc, colours)?)
}
