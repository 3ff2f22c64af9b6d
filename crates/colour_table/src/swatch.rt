//! A colour under its token.
//!
//! It is the grammar of a line alone, without the lines before it.

ghost use Rattle.std.specs.Prelude.{◌≡◌, IfOk};
ghost use Rattle.colour_table.specs.Token.{token_of};
ghost use Rattle.colour_table.specs.Swatch.{intensity_of, colour_with, swatch_with, swatch_of};

use crate::token::is_token;
use chart_model::{Octets, Sequence};
use std::alloc::{AllocError, Global};
use text_lines::{Words, cut_part, read_words};
use text_scan::read_number;

/// What parts the words of a line.
const SPACE: u8 = b' ';

/// A colour by its red, green and blue.
#[derive(Clone, Copy, Debug, PartialEq, Eq)]
pub struct Colour {
    pub red: u8,
    pub green: u8,
    pub blue: u8,
}

/// A colour under its token, as `DEPVS`.
#[derive(Debug, Drop)]
pub struct Swatch {
    pub token: Octets,
    pub colour: Colour,
}

/// Colours under their tokens, in order.
pub type ColourTable = Sequence<Swatch>;

/// The intensity that digits write: 0 to 255.
fn read_intensity(digits: &[u8]) -> Option<u8>
    ensures { result ≡ intensity_of digits.now }
{
    match read_number(digits) {
        Some(number @ 0..=255) => Some(number as u8),
        _ => None,
    }
}

/// The colour of three words.
fn read_colour(red: &[u8], green: &[u8], blue: &[u8]) -> Option<Colour>
    ensures { result ≡ colour_with (intensity_of red.now) (intensity_of green.now) (intensity_of blue.now) }
{
    let red = read_intensity(red)?;
    let green = read_intensity(green)?;
    let blue = read_intensity(blue)?;
    Some(Colour { red, green, blue })
}

/// A colour under the token that a word is; none where the word is no token, or there is no colour.
fn swatch_with(
    alloc: Global,
    token: &[u8],
    colour: Option<Colour>,
) -> Result<Option<Swatch>, AllocError>
    ensures { IfOk result (λ swatch. swatch ≡ swatch_with (token_of token.now) colour) }
{
    if !is_token(token) {
        return Ok(None);
    }
    let Some(colour) = colour else {
        return Ok(None);
    };
    Ok(Some(Swatch {
        token: Octets::from_slice(alloc, token)?,
        colour,
    }))
}

/// The colour under its token that a line is.
#[tactic(auto, unfolding(crate::specs::Swatch::swatch_in))]
pub(crate) fn read_swatch(alloc: Global, line: &[u8]) -> Result<Option<Swatch>, AllocError>
    ensures { IfOk result (λ swatch. swatch ≡ swatch_of line.now) }
{
    let (token, rest) = cut_part(line, SPACE);
    let Some(rest) = rest else {
        return Ok(None);
    };
    match read_words(rest) {
        Words::Three(red, green, blue) => swatch_with(alloc, token, read_colour(red, green, blue)),
        _ => Ok(None),
    }
}
