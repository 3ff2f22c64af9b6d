//! What is drawn, as tables of tests state it.
//!
//! Tables of several crates state items in this form, a few words each. The settings have their contours far apart, so
//! that a case says by its depth which of them it is about.

use chart_model::{ItemList, Settings, Shades, Target};

/// What the mariner sets where a case says nothing else.
pub const SETTINGS: Settings = Settings {
    safety_contour: 1_000,
    safety_depth: 3_000,
    shallow: 500,
    deep: 2_000,
    shades: Shades::Four,
    pattern: false,
    scale: 1,
};

/// An item that is drawn: its target and its instruction.
pub type Drawn = (Target, &'static [u8]);

/// Whether these are the items, in this order.
pub fn are_items(items: &ItemList, drawn: &[Drawn]) -> bool {
    let items = items.as_slice();
    items.len() == drawn.len()
        && items.iter().zip(drawn).all(|(item, (target, text))| {
            item.target == *target && item.text.as_slice() == *text
        })
}

/// The same instruction on each of some edges.
#[macro_export]
macro_rules! edges {
    ($text:expr, $($number:expr),+ $(,)?) => {
        &[$(($crate::Target::Edge($number), $text)),+]
    };
}

/// Instructions on the whole feature.
#[macro_export]
macro_rules! whole {
    ($($text:expr),+ $(,)?) => {
        &[$(($crate::Target::Whole, $text)),+]
    };
}
