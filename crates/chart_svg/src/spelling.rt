//! How an element is spelled in SVG 1.1.
//!
//! Each element is a path, so that one rule says where it goes. Its place in the drawing stands in `data-` attributes,
//! which viewers leave alone and programs can ask.

ghost use Rattle.std.specs.Prelude.{◌≡◌, ◌++◌, ◌<◌, codes, OnOk};
ghost use Rattle.chart_svg.specs.Escape.{escaped};
ghost use Rattle.chart_svg.specs.Outline.{outlines_text, marks_text};
ghost use Rattle.chart_svg.specs.Spelling.{number, attribute, row_text, source_text, origin_text};
ghost use Rattle.chart_svg.specs.Spelling.{hex_digit, colour_text, fill_text, dash_text, stroke_text, pen_text};
ghost use Rattle.chart_svg.specs.Spelling.{figure_text, title_text, end_text, element_text};

use crate::element::{Element, Origin};
use crate::escape::push_escaped;
use crate::figure::{Dash, Figure, Fill, Pen, SpotList};
use crate::outline::{push_marks, push_outlines};
use crate::view::Spot;
use chart_model::Octets;
use colour_table::Colour;
use std::alloc::{AllocError, Global};
use text_scan::write_number;

/// The path data of a small box.
const BOX_PATH: &[u8] = b"m-3,-3l6,0l0,6l-6,0z";

/// Adds an attribute with a number.
#[tactic(auto, unfolding(crate::specs::Spelling::attribute))]
fn push_number(alloc: Global, out: &mut Octets, opening: &[u8], n: u64) -> Result<(), AllocError>
    ensures { OnOk result (out.new ≡ out.old ++ attribute opening.now (number n)) }
{
    out.extend_from_slice(opening)?;
    write_number(alloc, out, i128::from(n))?;
    out.extend_from_slice(b"\"")
}

/// Adds an attribute with a text.
#[tactic(auto, unfolding(crate::specs::Spelling::attribute))]
fn push_text(alloc: Global, out: &mut Octets, opening: &[u8], text: &[u8]) -> Result<(), AllocError>
    ensures { OnOk result (out.new ≡ out.old ++ attribute opening.now (escaped text.now)) }
{
    out.extend_from_slice(opening)?;
    push_escaped(alloc, out, text)?;
    out.extend_from_slice(b"\"")
}

/// Adds where the element of an item comes from.
fn push_source(
    alloc: Global,
    out: &mut Octets,
    key: &[u8],
    rcid: u64,
    text: &[u8],
) -> Result<(), AllocError>
    ensures { OnOk result (out.new ≡ out.old ++ source_text key.now rcid text.now) }
{
    push_text(alloc, out, b" data-cell=\"", key)?;
    push_number(alloc, out, b" data-feature=\"", rcid)?;
    push_text(alloc, out, b" data-instruction=\"", text)
}

/// Adds where the element of a danger comes from.
fn push_row(
    alloc: Global,
    out: &mut Octets,
    leg: u64,
    key: &[u8],
    rcid: u64,
    place: u64,
) -> Result<(), AllocError>
    ensures { OnOk result (out.new ≡ out.old ++ row_text leg key.now rcid place) }
{
    push_number(alloc, out, b" data-leg=\"", leg)?;
    push_text(alloc, out, b" data-cell=\"", key)?;
    push_number(alloc, out, b" data-feature=\"", rcid)?;
    push_number(alloc, out, b" data-place=\"", place)
}

/// Adds where an element comes from.
fn push_origin(alloc: Global, out: &mut Octets, origin: &Origin) -> Result<(), AllocError>
    ensures { OnOk result (out.new ≡ out.old ++ origin_text origin.now) }
{
    match origin {
        Origin::FromItem(key, rcid, text) => push_source(
            alloc,
            out,
            key.as_slice(),
            u64::from(*rcid),
            text.as_slice(),
        ),
        Origin::FromLeg(leg) => push_number(alloc, out, b" data-leg=\"", u64::from(*leg)),
        Origin::FromDanger(danger) => push_row(
            alloc,
            out,
            u64::from(danger.leg),
            danger.key.as_slice(),
            u64::from(danger.rcid),
            danger.place,
        ),
    }
}

/// A hexadecimal digit.
fn hex_digit(n: u8) -> u8
    requires { n < 16 }
    ensures { result ≡ hex_digit n }
{
    if n < 10 { b'0' + n } else { b'a' + (n - 10) }
}

/// Adds a colour.
#[tactic(auto, unfolding(crate::specs::Spelling::colour_text))]
fn push_colour(out: &mut Octets, colour: Colour) -> Result<(), AllocError>
    ensures { OnOk result (out.new ≡ out.old ++ colour_text colour) }
{
    let Colour { red, green, blue } = colour;
    out.extend_from_slice(&[
        b'#',
        hex_digit(red / 16),
        hex_digit(red % 16),
        hex_digit(green / 16),
        hex_digit(green % 16),
        hex_digit(blue / 16),
        hex_digit(blue % 16),
    ])
}

/// How a line is broken.
fn dash_text(dash: Dash) -> &'static [u8]
    ensures { result.now ≡ dash_text dash }
{
    match dash {
        Dash::Solid => b"",
        Dash::Dashed => b" stroke-dasharray=\"6,4\"",
        Dash::Dotted => b" stroke-dasharray=\"1,3\"",
    }
}

/// Adds an attribute with a colour.
#[tactic(auto, unfolding(crate::specs::Spelling::attribute))]
fn push_colour_of(out: &mut Octets, opening: &[u8], colour: Colour) -> Result<(), AllocError>
    ensures { OnOk result (out.new ≡ out.old ++ attribute opening.now (colour_text colour)) }
{
    out.extend_from_slice(opening)?;
    push_colour(out, colour)?;
    out.extend_from_slice(b"\"")
}

/// Adds the colour that a line is drawn in.
#[tactic(auto, unfolding(crate::specs::Spelling::stroke_text))]
fn push_stroke(out: &mut Octets, colour: Colour) -> Result<(), AllocError>
    ensures { OnOk result (out.new ≡ out.old ++ stroke_text colour) }
{
    push_colour_of(out, b" stroke=\"", colour)
}

/// Adds a colour through which what is below shows.
fn push_sheer(out: &mut Octets, colour: Colour) -> Result<(), AllocError>
    ensures { OnOk result (out.new ≡ out.old ++ (attribute (codes " fill=\"") (colour_text colour)
        ++ codes " fill-opacity=\"0.15\"" ++ stroke_text colour)) }
{
    push_colour_of(out, b" fill=\"", colour)?;
    out.extend_from_slice(b" fill-opacity=\"0.15\"")?;
    push_stroke(out, colour)
}

/// Adds what fills an area.
#[tactic(auto, unfolding(crate::specs::Spelling::fill_text))]
fn push_fill(out: &mut Octets, fill: Fill) -> Result<(), AllocError>
    ensures { OnOk result (out.new ≡ out.old ++ fill_text fill) }
{
    match fill {
        Fill::Flat(colour) => push_colour_of(out, b" fill=\"", colour),
        Fill::Hatched => out.extend_from_slice(b" fill=\"url(#hatching)\""),
        Fill::Sheer(colour) => push_sheer(out, colour),
    }
}

/// Adds what a line is drawn with.
fn push_pen(alloc: Global, out: &mut Octets, pen: Pen) -> Result<(), AllocError>
    ensures { OnOk result (out.new ≡ out.old ++ pen_text pen) }
{
    push_stroke(out, pen.colour)?;
    push_number(alloc, out, b" stroke-width=\"", pen.width)?;
    out.extend_from_slice(dash_text(pen.dash))
}

/// Adds where lines go.
#[tactic(auto, unfolding(crate::specs::Spelling::attribute))]
fn push_lines(
    alloc: Global,
    out: &mut Octets,
    lines: &[SpotList],
    ending: &[u8],
) -> Result<(), AllocError>
    ensures { OnOk result
        (out.new ≡ out.old ++ attribute (codes " d=\"") (outlines_text ending.now lines.now)) }
{
    out.extend_from_slice(b" d=\"")?;
    push_outlines(alloc, out, lines, ending)?;
    out.extend_from_slice(b"\"")
}

/// Adds where marks go.
#[tactic(auto, unfolding(crate::specs::Spelling::attribute))]
fn push_places(
    alloc: Global,
    out: &mut Octets,
    spots: &[Spot],
    path: &[u8],
) -> Result<(), AllocError>
    ensures { OnOk result
        (out.new ≡ out.old ++ attribute (codes " d=\"") (marks_text (escaped path.now) spots.now)) }
{
    out.extend_from_slice(b" d=\"")?;
    push_marks(alloc, out, spots, path)?;
    out.extend_from_slice(b"\"")
}

/// Adds an area within rings.
fn push_area(
    alloc: Global,
    out: &mut Octets,
    rings: &[SpotList],
    fill: Fill,
) -> Result<(), AllocError>
    ensures { OnOk result (out.new ≡ out.old ++ (attribute (codes " d=\"") (outlines_text (codes "Z") rings.now)
        ++ codes " fill-rule=\"evenodd\"" ++ fill_text fill)) }
{
    push_lines(alloc, out, rings, b"Z")?;
    out.extend_from_slice(b" fill-rule=\"evenodd\"")?;
    push_fill(out, fill)
}

/// Adds what is drawn.
#[tactic(auto, unfolding(crate::specs::Spelling::figure_text))]
fn push_figure(alloc: Global, out: &mut Octets, figure: &Figure) -> Result<(), AllocError>
    ensures { OnOk result (out.new ≡ out.old ++ figure_text figure.now) }
{
    match figure {
        Figure::Area(rings, fill) => push_area(alloc, out, rings.as_slice(), *fill),
        Figure::Lines(lines, pen) => {
            push_lines(alloc, out, lines.as_slice(), b"")?;
            push_pen(alloc, out, *pen)
        }
        Figure::Symbols(spots, path, colour) => {
            push_places(alloc, out, spots.as_slice(), path.get().as_slice())?;
            push_stroke(out, *colour)
        }
        Figure::Boxes(spots) => {
            push_places(alloc, out, spots.as_slice(), BOX_PATH)?;
            out.extend_from_slice(b" stroke=\"black\"")
        }
    }
}

/// Adds a title, and what ends the element that has it.
fn push_title(alloc: Global, out: &mut Octets, text: &[u8]) -> Result<(), AllocError>
    ensures { OnOk result (out.new ≡ out.old ++ title_text text.now) }
{
    out.extend_from_slice(b"><title>")?;
    push_escaped(alloc, out, text)?;
    out.extend_from_slice(b"</title></path>")
}

/// Adds what ends an element: that of a box has its instruction as a title.
fn push_end(
    alloc: Global,
    out: &mut Octets,
    origin: &Origin,
    figure: &Figure,
) -> Result<(), AllocError>
    ensures { OnOk result (out.new ≡ out.old ++ end_text origin.now figure.now) }
{
    match (origin, figure) {
        (Origin::FromItem(_, _, text), Figure::Boxes(_)) => push_title(alloc, out, text.as_slice()),
        _ => out.extend_from_slice(b"/>"),
    }
}

/// Adds an element, on a line of its own.
#[tactic(auto, unfolding(crate::specs::Spelling::element_text))]
pub(crate) fn push_element(
    alloc: Global,
    out: &mut Octets,
    element: &Element,
) -> Result<(), AllocError>
    ensures { OnOk result (out.new ≡ out.old ++ element_text element.now) }
{
    out.extend_from_slice(b"<path")?;
    push_origin(alloc, out, &element.origin)?;
    push_figure(alloc, out, &element.figure)?;
    push_end(alloc, out, &element.origin, &element.figure)?;
    out.extend_from_slice(b"\n")
}
