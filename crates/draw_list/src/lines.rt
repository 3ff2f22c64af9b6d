//! The lines of a whole drawing.
//!
//! They are counted on the way, since the reply that they follow has to say their number first.

ghost use Rattle.std.specs.Prelude.{◌≡◌, ◌++◌, ◌+◌, ◌≤◌, OnOk, IfOk, length};
ghost use Rattle.draw_list.specs.Lines.{items_in, block_lines, lines_of};

use crate::drawing::{DrawList, Drawn};
use crate::print::push_line;
use chart_model::Octets;
use std::alloc::{AllocError, Global};

/// Adds the lines of a block's items.
fn push_block(alloc: Global, lines: &mut Octets, drawn: &Drawn) -> Result<(), AllocError>
    ensures lines { OnOk result (lines.new ≡ lines.old ++ block_lines drawn.now) }
    ensures counted { OnOk result (length lines.old + length drawn.now.block.items ≤ length lines.new) }
{
    for item in drawn.block.items.as_slice() {
        push_line(alloc, lines, &drawn.block, drawn.rcid, item)?;
    }
    Ok(())
}

/// The number of a drawing's items, and their lines in the drawing's order, each as `print_item` writes it.
pub fn print_drawing(alloc: Global, drawing: &DrawList) -> Result<(u64, Octets), AllocError>
    ensures count { IfOk result (λ printed. printed.0 ≡ items_in drawing.now) }
    ensures lines { IfOk result (λ printed. printed.1 ≡ lines_of drawing.now) }
{
    let mut count: u64 = 0;
    let mut lines = Octets::from_vec(Vec::new(alloc));
    for drawn in drawing.as_slice() {
        push_block(alloc, &mut lines, drawn)?;
        // The length of a vector is known where it is read: each item has a byte at least among the lines, so the count
        // can't overflow.
        let _ = lines.as_slice();
        count += drawn.block.items.as_slice().len() as u64;
    }
    Ok((count, lines))
}
