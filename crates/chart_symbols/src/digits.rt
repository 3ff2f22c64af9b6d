//! The digits of depths.
//!
//! A digit's symbol is named by the prefix of its depth, its place and itself, as `SOUNDS12`. All that have one name
//! differ in nothing else, so they are put together here from a few tables.

ghost use Rattle.std.specs.Prelude.{◌≡◌, ◌++◌, IfOk, OnOk};
ghost use Rattle.std.specs.List.{flat_map};
ghost use Rattle.chart_symbols.specs.Digits.{digit_symbol, digits_at, prefixed_at};

use crate::symbol::{Symbol, SymbolList};
use chart_model::{Octets, Shared};
use colour_table::{Colour, Swatch, colour_under};
use std::alloc::{AllocError, Global};

/// The places of digits, each with the step from the depth's place to the upper left corner of the digit. From left to
/// right they are `3`, `2`, `1`, `0` and `4`; `5` is that of tenths of a metre, a little lower. Those that most depths
/// have stand first, so that they are found soon.
pub(crate) static PLACES: [(u8, &[u8]); 6] = [
    (b'1', b"m-5,-4"),
    (b'0', b"m1,-4"),
    (b'5', b"m1,-1"),
    (b'2', b"m-11,-4"),
    (b'4', b"m7,-4"),
    (b'3', b"m-17,-4"),
];

/// The digits, each with its strokes from its upper left corner on: 4 units wide and 8 high.
static DIGITS: [(u8, &[u8]); 10] = [
    (b'0', b"m0,4a2,4,0,1,0,4,0a2,4,0,1,0,-4,0"),
    (b'1', b"m1,1l2,-1v8"),
    (b'2', b"m0,2a2,2,0,0,1,4,0c0,2,-3,3,-4,6h4"),
    (b'3', b"h4l-2,3c3,0,3,5,0,5h-2"),
    (b'4', b"m3,8v-8l-3,6h4"),
    (b'5', b"m4,0h-3l-1,3h2c3,0,3,5,0,5h-2"),
    (b'6', b"m3,0c-2,1,-3,3,-3,6a2,2,0,0,0,4,0a2,2,0,0,0,-4,0"),
    (b'7', b"h4l-3,8"),
    (b'8', b"m2,4c-3,0,-3,-4,0,-4s3,4,0,4s-3,4,0,4s3,-4,0,-4"),
    (b'9', b"m1,8c2,-1,3,-3,3,-6a2,2,0,0,0,-4,0a2,2,0,0,0,4,0"),
];

/// The name and the symbol of a digit in its cell, the digit's place and the digit.
fn digit_symbol(
    alloc: Global,
    prefix: &[u8],
    colour: Colour,
    cell: &[u8],
    step: &[u8],
    strokes: &[u8],
) -> Result<(Octets, Symbol), AllocError>
    ensures { IfOk result (λ named. named ≡
        digit_symbol prefix.now colour cell.now step.now strokes.now) }
{
    let mut name = Octets::from_slice(alloc, prefix)?;
    name.extend_from_slice(cell)?;
    let mut path = Octets::from_slice(alloc, step)?;
    path.extend_from_slice(strokes)?;
    let path = Shared::of(alloc, path)?;
    Ok((name, Symbol { path, colour }))
}

/// Adds the symbols of all digits at a place.
#[tactic(auto, unfolding(crate::specs::Digits::digits_at))]
fn push_digits(
    alloc: Global,
    symbols: &mut SymbolList,
    prefix: &[u8],
    colour: Colour,
    place: u8,
    step: &[u8],
) -> Result<(), AllocError>
    ensures { OnOk result (symbols.new ≡ symbols.old ++ digits_at prefix.now colour place step.now) }
{
    for (digit, strokes) in DIGITS.iter() {
        let cell = [place, *digit];
        symbols.push(digit_symbol(alloc, prefix, colour, &cell, step, strokes)?)?;
    }
    Ok(())
}

/// Adds the symbols of all digits at a place, under both prefixes: black up to the safety depth, and grey of greater
/// depths.
#[tactic(auto, unfolding(crate::specs::Digits::prefixed_at))]
fn push_prefixed(
    alloc: Global,
    symbols: &mut SymbolList,
    colours: &[Swatch],
    place: u8,
    step: &[u8],
) -> Result<(), AllocError>
    ensures { OnOk result (symbols.new ≡ symbols.old ++ prefixed_at colours.now place step.now) }
{
    let black = colour_under(colours, b"SNDG2");
    push_digits(alloc, symbols, b"SOUNDS", black, place, step)?;
    let grey = colour_under(colours, b"SNDG1");
    push_digits(alloc, symbols, b"SOUNDG", grey, place, step)
}

/// Adds the symbols of all digits at some places, under both prefixes.
pub(crate) fn push_places(
    alloc: Global,
    symbols: &mut SymbolList,
    colours: &[Swatch],
    places: &[(u8, &[u8])],
) -> Result<(), AllocError>
    ensures { OnOk result (symbols.new ≡ symbols.old
        ++ flat_map (λ place. prefixed_at colours.now place.0 place.1.now) places.now) }
{
    for (place, step) in places {
        push_prefixed(alloc, symbols, colours, *place, step)?;
    }
    Ok(())
}
