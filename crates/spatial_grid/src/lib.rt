//! Which features of a chart an area may touch, found without looking at every feature.
//!
//! Whether a leg or a hazard meets an area is dear to tell, and mostly the two are far apart. So the least box round
//! each feature is kept, and the features are put into up to 64 by 64 buckets over the chart: who asks for those whose
//! boxes meet an area looks into the buckets that the area covers.
//!
//! The box of a feature is made of the boxes of the nodes and edges that it points to, each of which is made once: the
//! shape of a feature that points to one edge many times is far larger than the chart.
#![tactic(auto)]

mod axis;
mod boxes;
mod candidates;
mod edges;
mod entries;
mod entry;
mod grid;
mod kept;
mod point_box;
mod record_boxes;
mod table;

pub use grid::{Grid, GridMap, grid_of};
