//! The attributes of features.
//!
//! S-57 gives the value of any attribute as a text (ATVL). One that is no depth counts as absent, so that a value that
//! nobody can read refuses no drawing.

ghost use Rattle.std.specs.Prelude.{◌≡◌, pos, ◌≤ℤ◌, IfSome};
ghost use Rattle.depth_values.specs.Attributes.{depth_at, has_value};

use chart_model::Feature;
use text_scan::read_depth;

/// The depth that the text of an attribute is, in centimetres; `None` where there is no such attribute or its
/// text is no depth. It takes no memory.
pub fn depth_at(feature: &Feature, code: u16) -> Option<i32>
    ensures depth { result ≡ depth_at feature.now code }
    ensures small { IfSome result (λ depth. depth ≤ℤ pos 100000000) }
{
    let text = feature.attrs.get(code)?;
    read_depth(text.as_slice())
}

/// Whether the text of an attribute is this value alone. It takes no memory.
pub fn has_value(feature: &Feature, code: u16, value: &[u8]) -> bool
    ensures { result ≡ has_value feature.now code value.now }
{
    match feature.attrs.get(code) {
        Some(text) => text.as_slice() == value,
        None => false,
    }
}
