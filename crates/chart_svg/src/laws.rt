//! What holds of the definitions.

ghost use Rattle.std.specs.Prelude.{◌≡◌, ◌<◌, ℕ, List, pos, All};
ghost use Rattle.chart_svg.specs.declared.view.View.{View as ViewValue};
ghost use Rattle.chart_svg.specs.View.{across, down};
ghost use Rattle.chart_svg.specs.Escape.{escaped, IsQuiet};

/// The borders of a view are those of its picture.
pub fn corners_are_corners()
    ensures west { (view : ViewValue) → across view view.west ≡ pos 0 }
    ensures east { (view : ViewValue) → across view view.east ≡ pos view.width }
    ensures north { (view : ViewValue) → down view view.north ≡ pos 0 }
{}

/// No byte of a text within a document ends an attribute or begins an element, and all are visible ASCII characters or
/// spaces, whatever bytes the text has.
pub fn escaped_text_is_quiet()
    ensures { (text : List ℕ) → All (λ byte. byte < 256) text → All IsQuiet (escaped text) }
{}
