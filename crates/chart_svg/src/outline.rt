//! Path data: where lines go.

ghost use Rattle.std.specs.Prelude.{◌≡◌, ◌++◌, OnOk};
ghost use Rattle.std.specs.List.{flat_map};
ghost use Rattle.chart_svg.specs.Escape.{escaped};
ghost use Rattle.chart_svg.specs.Outline.{step_text, outline_text, outlines_text, marks_text};

use crate::escape::push_escaped;
use crate::figure::SpotList;
use crate::view::Spot;
use chart_model::Octets;
use std::alloc::{AllocError, Global};
use text_scan::write_number;

/// Adds a command with a place.
fn push_step(alloc: Global, out: &mut Octets, letter: u8, spot: &Spot) -> Result<(), AllocError>
    ensures { OnOk result (out.new ≡ out.old ++ step_text letter spot.now) }
{
    out.extend_from_slice(&[letter])?;
    write_number(alloc, out, i128::from(spot.x))?;
    out.extend_from_slice(b",")?;
    write_number(alloc, out, i128::from(spot.y))
}

/// Adds straight lines to places.
fn push_steps(alloc: Global, out: &mut Octets, spots: &[Spot]) -> Result<(), AllocError>
    ensures { OnOk result (out.new ≡ out.old ++ flat_map (step_text 76) spots.now) }
{
    for spot in spots {
        push_step(alloc, out, b'L', spot)?;
    }
    Ok(())
}

/// Adds a line: to its first place, from there straight to each other, and what ends it.
fn push_outline(
    alloc: Global,
    out: &mut Octets,
    line: &[Spot],
    ending: &[u8],
) -> Result<(), AllocError>
    ensures { OnOk result (out.new ≡ out.old ++ outline_text ending.now line.now) }
{
    let [first, rest @ ..] = line else {
        return Ok(());
    };
    push_step(alloc, out, b'M', first)?;
    push_steps(alloc, out, rest)?;
    out.extend_from_slice(ending)
}

/// Adds lines, one after the other.
pub(crate) fn push_outlines(
    alloc: Global,
    out: &mut Octets,
    lines: &[SpotList],
    ending: &[u8],
) -> Result<(), AllocError>
    ensures { OnOk result (out.new ≡ out.old ++ outlines_text ending.now lines.now) }
{
    for line in lines {
        push_outline(alloc, out, line.as_slice(), ending)?;
    }
    Ok(())
}

/// Adds path data from each of some places on.
pub(crate) fn push_marks(
    alloc: Global,
    out: &mut Octets,
    spots: &[Spot],
    path: &[u8],
) -> Result<(), AllocError>
    ensures { OnOk result (out.new ≡ out.old ++ marks_text (escaped path.now) spots.now) }
{
    for spot in spots {
        push_step(alloc, out, b'M', spot)?;
        push_escaped(alloc, out, path)?;
    }
    Ok(())
}
