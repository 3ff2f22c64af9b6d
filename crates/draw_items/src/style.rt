//! The style of the line along an edge.
//!
//! A mariner has to see which lines are surveyed, so that goes by the edge and not by the feature.

ghost use Rattle.std.specs.Prelude.{◌≡◌};
ghost use Rattle.std.specs.Option.{option_copied};
ghost use Rattle.draw_items.specs.Style.{is_exact, is_solid};

use chart_model::{Cell, Name, Octets};

/// The code of the attribute QUAPOS: the quality of the position of an edge (S-57 Appendix A).
const QUAPOS: u16 = 402;

/// Whether a quality of position, where there is one, is exact: surveyed (`1`), precisely known (`10`) or calculated
/// (`11`).
fn is_exact(quality: Option<&Octets>) -> bool
    ensures { result ≡ is_exact (option_copied quality.entry) }
{
    let Some(quality) = quality else {
        return true;
    };
    let text = quality.as_slice();
    text == b"1".as_slice() || text == b"10".as_slice() || text == b"11".as_slice()
}

/// Whether the line along an edge is solid: its position has no quality (QUAPOS), or is surveyed, precisely known or
/// calculated. Other lines are dashed. It takes no memory.
pub fn is_solid(cell: &Cell, edge: Name) -> bool
    ensures { result ≡ is_solid cell.now edge }
{
    match cell.vectors.get(edge) {
        Some(vector) => is_exact(vector.attrs.get(QUAPOS)),
        None => true,
    }
}
