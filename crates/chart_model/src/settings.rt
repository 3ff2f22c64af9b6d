//! What the mariner sets for the display.
//!
//! What is drawn of a chart depends on these and on the lookup table alone.

/// How many shades depth areas are drawn in.
#[derive(Clone, Copy, Debug, PartialEq, Eq)]
pub enum Shades {
    /// Parted at the safety contour.
    Two,
    /// Parted at the shallow contour, the safety contour and the deep contour.
    Four,
}

/// What the mariner sets for the display. Depths are in centimetres.
#[derive(Clone, Copy, Debug, PartialEq, Eq)]
pub struct Settings {
    /// The safety contour: an area is safe where it is at least so deep.
    pub safety_contour: i32,
    /// The safety depth: a sounding up to it is a danger.
    pub safety_depth: i32,
    /// The shallow contour.
    pub shallow: i32,
    /// The deep contour.
    pub deep: i32,
    pub shades: Shades,
    /// Whether depth areas that are not deeper than the safety contour have a pattern.
    pub pattern: bool,
    /// The denominator of the display scale.
    pub scale: u32,
}
