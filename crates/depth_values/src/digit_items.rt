//! The symbols of a depth's digits.
//!
//! They are instructions as a lookup table has them (`SY`), so who shows a drawing needs no rule for depths. All of a
//! depth stand at its one target: the name of a symbol has the place of its digit.

ghost use Rattle.std.specs.Prelude.{◌≡◌, ◌++◌, ◌∷◌, [], OnOk};
ghost use Rattle.chart_model.specs.Record.{IsWithin};
ghost use Rattle.draw_items.specs.Items.{item};
ghost use Rattle.depth_values.specs.DigitItems.{symbol_text, digit_items};

use crate::digits::digit_cells;
use chart_model::{ItemList, Target};
use draw_items::push_item;
use std::alloc::{AllocError, Global};

/// The bytes of an instruction that draws a symbol of a digit.
const TEXT_LENGTH: usize = 12;

/// Writes the instruction that draws the symbol of a cell over a text: `SY(`, the prefix, the cell and `)`.
fn write_symbol(text: &mut Vec<u8>, prefix: &[u8], cell: &[u8]) -> Result<(), AllocError>
    ensures { OnOk result (text.new.items ≡ symbol_text prefix.now cell.now) }
{
    text.clear();
    text.extend_from_slice(b"SY(")?;
    text.extend_from_slice(prefix)?;
    text.extend_from_slice(cell)?;
    text.extend_from_slice(b")")?;
    Ok(())
}

/// Adds the symbols of the digits of a depth, each at the target: one for each cell of `digit_cells`. Their
/// texts are written into one place, one after the other, since a chart has thousands of them.
pub fn push_digits(
    alloc: Global,
    items: &mut ItemList,
    target: Target,
    depth: i32,
    safety_depth: i32,
) -> Result<(), AllocError>
    requires { IsWithin 9999999 depth }
    ensures { OnOk result (items.new ≡ items.old ++ digit_items target depth safety_depth) }
{
    let digits = digit_cells(depth, safety_depth);
    let mut text = Vec::with_capacity(alloc, TEXT_LENGTH)?;
    for cell in digits.cells.as_slice() {
        write_symbol(&mut text, &digits.prefix, cell)?;
        push_item(alloc, items, target, text.as_slice())?;
    }
    Ok(())
}
