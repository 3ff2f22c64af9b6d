//! Conditional symbology procedures (IHO S-52, `CS`) of depths: depth areas, depth contours and soundings.
//!
//! The rules, and the names of colours, patterns, styles and symbols, are this project's own, in the manner of IHO
//! S-52; they are those of no edition of it. Depths are whole centimetres.
//!
//! Each procedure has two forms: one that finds its feature by name and gives the items, and one that adds them to
//! those of a block, where the feature was found already.
#![tactic(auto)]

mod colour;
mod contours;
mod depth_area;
mod edge_answers;
mod soundings;
mod text;

pub use contours::{depcnt02, push_depcnt02};
pub use depth_area::{depare01, push_depare01};
pub use edge_answers::EdgeAnswers;
pub use soundings::{push_soundg02, soundg02};
