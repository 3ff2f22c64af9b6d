//! Items of drawings as the procedures make them: an instruction at a target, and an instruction on each edge of a
//! feature that is drawn.
#![tactic(auto)]

mod edges;
mod items;
mod style;

pub use edges::{is_drawn, push_on_edges};
pub use items::push_item;
pub use style::is_solid;
