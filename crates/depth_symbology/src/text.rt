//! Lines along edges.
//!
//! Their instructions are whole texts for each style, so that no text is put together at a drawing.

ghost use Rattle.std.specs.Prelude.{◌≡◌, codes};
ghost use Rattle.draw_items.specs.Style.{style_of};
ghost use Rattle.depth_symbology.specs.Text.{line_text};

use chart_model::{Cell, Name};
use draw_items::is_solid;

/// The instruction that draws a safety contour along an edge.
pub fn safety_contour(cell: &Cell, edge: Name) -> &'static [u8]
    ensures { result.now ≡ line_text (style_of cell.now edge) (codes "2,DEPSC") }
{
    if is_solid(cell, edge) {
        b"LS(SOLID,2,DEPSC)"
    } else {
        b"LS(DASH,2,DEPSC)"
    }
}

/// The instruction that draws any other contour along an edge.
pub fn other_contour(cell: &Cell, edge: Name) -> &'static [u8]
    ensures { result.now ≡ line_text (style_of cell.now edge) (codes "1,DEPCN") }
{
    if is_solid(cell, edge) {
        b"LS(SOLID,1,DEPCN)"
    } else {
        b"LS(DASH,1,DEPCN)"
    }
}
