//! The depths of a chart's objects, as its drawing and its route checks take them.
//!
//! All depths are whole centimetres. The rules are this project's own, in the manner of IHO S-52, and are those
//! of no edition of it.
#![tactic(auto)]

mod area;
mod areas;
mod asked;
mod attributes;
mod bounded;
mod cells;
pub mod codes;
mod depth_area;
mod digit_items;
mod digits;
mod effort;
mod extent;
mod extents;
mod groups;
mod hazard;
mod laws;
mod made;
mod safety;
mod same;
mod twins;
mod under;

pub use area::{Depths, area_depths};
pub use areas::DepthAreas;
pub use attributes::{depth_at, has_value};
pub use bounded::shape_within;
pub use cells::CellList;
pub use digit_items::push_digits;
pub use digits::{Digits, digit_cells};
pub use effort::Effort;
pub use hazard::{
    hazard_depth, hazard_depth_among, hazard_depth_at, is_danger_over_safe_area, sounding,
};
pub use laws::{digits_write_depths, least_is_least};
pub use made::depth_areas;
pub use safety::{is_safe_area, is_safe_area_with, is_unsafe_area};
pub use under::{areas_among, areas_under};
