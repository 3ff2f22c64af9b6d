//! Which records differ between two charts of a cell.
//!
//! A caller that follows a chart, as a drawing or a list of users does, has to look at these records alone.
#![tactic(auto)]

mod difference;
mod same;

pub use difference::{changed_among, changed_names, in_order_once};
