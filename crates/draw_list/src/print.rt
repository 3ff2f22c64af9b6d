//! The lines of a drawing.
//!
//! One item is one line, so that two drawings can be compared line by line.

ghost use Rattle.std.specs.Prelude.{◌≡◌, ◌++◌, ◌∷◌, [], OnOk, OnErr, IfOk};
ghost use Rattle.chart_model.specs.declared.drawing.Target.TheVariants.{Edge, At};
ghost use Rattle.draw_list.specs.Print.{letter_of, target_text, item_line};

use chart_model::{Block, Geom, Item, Octets, Target};
use std::alloc::{AllocError, Global};
use text_scan::write_number;

/// The letter of a geometry, between spaces.
fn letter_of(geom: Geom) -> &'static [u8]
    ensures { result.now ≡ 32 ∷ letter_of geom ++ 32 ∷ [] }
{
    match geom {
        Geom::Area => b" A ",
        Geom::Line => b" L ",
        Geom::Point => b" P ",
    }
}

/// Adds the number of an edge as a target, between spaces.
fn push_edge(alloc: Global, line: &mut Octets, rcid: u32) -> Result<(), AllocError>
    ensures { OnOk result (line.new ≡ line.old ++ 32 ∷ target_text (Edge rcid) ++ 32 ∷ []) }
{
    line.extend_from_slice(b" edge ")?;
    write_number(alloc, line, rcid as i128)?;
    line.extend_from_slice(b" ")
}

/// Adds a place as a target, between spaces.
fn push_place(alloc: Global, line: &mut Octets, x: i32, y: i32) -> Result<(), AllocError>
    ensures { OnOk result (line.new ≡ line.old ++ 32 ∷ target_text (At x y) ++ 32 ∷ []) }
{
    line.extend_from_slice(b" at ")?;
    write_number(alloc, line, x as i128)?;
    line.extend_from_slice(b" ")?;
    write_number(alloc, line, y as i128)?;
    line.extend_from_slice(b" ")
}

/// Adds a target between spaces.
fn push_target(alloc: Global, line: &mut Octets, target: Target) -> Result<(), AllocError>
    ensures { OnOk result (line.new ≡ line.old ++ 32 ∷ target_text target ++ 32 ∷ []) }
{
    match target {
        Target::Whole => line.extend_from_slice(b" whole "),
        Target::Edge(rcid) => push_edge(alloc, line, rcid),
        Target::At(x, y) => push_place(alloc, line, x, y),
    }
}

/// Adds the line of an item, as `print_item` has it. Where there is no memory a part of it may stand there.
pub(crate) fn push_line(
    alloc: Global,
    out: &mut Octets,
    block: &Block,
    rcid: u32,
    item: &Item,
) -> Result<(), AllocError>
    ensures { OnOk result
        (out.new ≡ out.old ++ item_line block.now.priority block.now.geom rcid item.now) }
{
    out.extend_from_slice(b"item ")?;
    write_number(alloc, out, block.priority as i128)?;
    out.extend_from_slice(letter_of(block.geom))?;
    write_number(alloc, out, rcid as i128)?;
    push_target(alloc, out, item.target)?;
    out.extend_from_slice(item.text.as_slice())?;
    out.extend_from_slice(b"\n")
}

/// Adds the line of an item of the block of the feature with a number: `item PRIORITY GEOM RCID TARGET TEXT` and a line
/// feed. GEOM is `A`, `L` or `P`; TARGET is `whole`, `edge RCID`, or `at X Y` in degrees times 10,000,000.
///
/// Where there is no memory nothing changes.
pub fn print_item(
    alloc: Global,
    out: &mut Octets,
    block: &Block,
    rcid: u32,
    item: &Item,
) -> Result<(), AllocError>
    ensures ok { OnOk result
        (out.new ≡ out.old ++ item_line block.now.priority block.now.geom rcid item.now) }
    ensures err { OnErr result (out.new ≡ out.old) }
{
    let mut line = Octets::from_vec(Vec::new(alloc));
    push_line(alloc, &mut line, block, rcid, item)?;
    out.extend_from_slice(line.as_slice())
}
