//! The colour of a depth area.
//!
//! The colours step by the contours that the mariner has set, from what dries to what is deep.

ghost use Rattle.std.specs.Prelude.{◌≡◌, pos};
ghost use Rattle.depth_symbology.specs.Text.{colour_text};
ghost use Rattle.depth_symbology.specs.Colour.{is_deeper, colour_of};

use chart_model::{Settings, Shades};
use depth_values::Depths;

/// Whether an area is nowhere less deep than a contour, and somewhere deeper.
pub fn is_deeper(contour: i32, depths: Depths) -> bool
    ensures { result ≡ is_deeper contour depths }
{
    contour <= depths.d1 && contour < depths.d2
}

/// The instruction that fills an area with its colour.
pub fn colour(settings: &Settings, depths: Depths) -> &'static [u8]
    ensures { result.now ≡ colour_text (colour_of settings.now depths) }
{
    match settings.shades {
        Shades::Two if is_deeper(settings.safety_contour, depths) => b"AC(DEPDW)",
        Shades::Four if is_deeper(settings.deep, depths) => b"AC(DEPDW)",
        Shades::Four if is_deeper(settings.safety_contour, depths) => b"AC(DEPMD)",
        Shades::Four if is_deeper(settings.shallow, depths) => b"AC(DEPMS)",
        _ if is_deeper(0, depths) => b"AC(DEPVS)",
        _ => b"AC(DEPIT)",
    }
}
