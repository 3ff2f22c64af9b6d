//! The colour under a token.

ghost use Rattle.std.specs.Prelude.{◌≡◌, map, IfOk};
ghost use Rattle.colour_table.specs.Under.{colour_under, colour_in, colours_by_token, under_token};

use crate::named::NamedMap;
use crate::swatch::{Colour, Swatch};
use chart_model::{Octets, Sequence};
use std::alloc::{AllocError, Global};

/// Colours under their tokens, found in few steps.
pub type ColourMap = NamedMap<Colour>;

/// What stands for a colour that isn't there.
const MAGENTA: Colour = Colour {
    red: 255,
    green: 0,
    blue: 255,
};

/// The first colour under a token, or magenta where there is none, so that nobody misses it. It takes no memory.
pub fn colour_under(colours: &[Swatch], token: &[u8]) -> Colour
    ensures { result ≡ colour_under colours.now token.now }
{
    for swatch in colours {
        if swatch.token.as_slice() == token {
            return swatch.colour;
        }
    }
    MAGENTA
}

/// The colour under a token, or magenta where there is none. It takes no memory.
pub fn colour_in(colours: &ColourMap, token: &[u8]) -> Colour
    ensures { result ≡ colour_in colours.now token.now }
{
    match colours.get(token) {
        Some(colour) => *colour,
        None => MAGENTA,
    }
}

/// Copies of colours, under copies of their tokens.
fn under_tokens(alloc: Global, colours: &[Swatch]) -> Result<Sequence<(Octets, Colour)>, AllocError>
    ensures { IfOk result (λ entries. entries ≡ map under_token colours.now) }
{
    let mut entries = Sequence::new(alloc);
    for swatch in colours {
        entries.push((swatch.token.clone()?, swatch.colour))?;
    }
    Ok(entries)
}

/// The first colour under each token.
pub fn colours_by_token(alloc: Global, colours: &[Swatch]) -> Result<ColourMap, AllocError>
    ensures { IfOk result (λ by_token. by_token ≡ colours_by_token colours.now) }
{
    NamedMap::of(alloc, under_tokens(alloc, colours)?)
}
