//! How an instruction draws.
//!
//! A table may have any instruction, so each is drawn somehow: what isn't known here is a box with its text.

ghost use Rattle.std.specs.Prelude.{◌≡◌};
ghost use Rattle.std.specs.Option.{option_copied};
ghost use Rattle.chart_svg.specs.Instruction.{argument_of, fill_of, dash_of, pen_with, pen_by, pen_of, drawn_symbol};
ghost use Rattle.text_lines.specs.Lines.{parts_at};
ghost use Rattle.text_scan.specs.Number.{number_of};

use crate::figure::{Dash, Fill, Pen};
use crate::look::Look;
use chart_symbols::Symbol;
use text_lines::cut_part;
use text_scan::read_number;

/// What stands between an opening and a closing parenthesis, where the text is these three.
fn argument<'a>(text: &'a [u8], opening: &[u8]) -> Option<&'a [u8]>
    ensures { option_copied result ≡ argument_of opening.now text.now }
{
    text.strip_prefix(opening)?.strip_suffix(b")")
}

/// What fills an area: the colour of `AC(TOKEN)`, or hatching for `AP(PATTERN)`.
pub(crate) fn fill_of(look: &Look, text: &[u8]) -> Option<Fill>
    ensures { result ≡ fill_of look.now text.now }
{
    if let Some(token) = argument(text, b"AC(") {
        return Some(Fill::Flat(look.colour(token)));
    }
    argument(text, b"AP(").map(|_| Fill::Hatched)
}

/// How a line of a style is broken.
fn dash_of(style: &[u8]) -> Dash
    ensures { result ≡ dash_of style.now }
{
    if style == b"DASH".as_slice() {
        Dash::Dashed
    } else if style == b"DOTT".as_slice() {
        Dash::Dotted
    } else {
        Dash::Solid
    }
}

/// The pen of a style, a width and a colour.
fn pen_with(look: &Look, style: &[u8], width: &[u8], token: &[u8]) -> Option<Pen>
    ensures { result ≡ pen_with look.now style.now token.now (number_of width.now) }
{
    let width = read_number(width)?;
    Some(Pen {
        colour: look.colour(token),
        width,
        dash: dash_of(style),
    })
}

/// The pen of a style, a width and a colour between commas.
#[tactic(auto, unfolding(crate::specs::Instruction::pen_by))]
fn pen_by(look: &Look, inner: &[u8]) -> Option<Pen>
    ensures { result ≡ pen_by look.now (parts_at 44 inner.now) }
{
    let (style, rest) = cut_part(inner, b',');
    let (width, rest) = cut_part(rest?, b',');
    let (token, rest) = cut_part(rest?, b',');
    match rest {
        Some(_) => None,
        None => pen_with(look, style, width, token),
    }
}

/// What a line is drawn with: the style, the width and the colour of `LS(STYLE,WIDTH,TOKEN)`.
pub(crate) fn pen_of(look: &Look, text: &[u8]) -> Option<Pen>
    ensures { result ≡ pen_of look.now text.now }
{
    pen_by(look, argument(text, b"LS(")?)
}

/// The symbol of `SY(NAME)`, where it was handed in.
pub(crate) fn drawn_symbol<'a>(look: &'a Look, text: &[u8]) -> Option<&'a Symbol>
    ensures { option_copied result ≡ drawn_symbol look.now text.now }
{
    look.symbol(argument(text, b"SY(")?)
}
