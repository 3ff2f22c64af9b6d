//! The drawing of a cell by a lookup table.
//!
//! A feature with a geometry (a point, a line or an area) is shown, unless its attribute SCAMIN is a number below the
//! denominator of the display scale. What is drawn of it is a block: the priority and the instructions of the table's
//! line for it, each on the whole feature or, where it calls a procedure, what the procedure makes of the feature; or a
//! question mark at priority 5, where the table has no line for it.
//!
//! The blocks of all features that are shown are listed under the features' names, in their order. The drawing is the
//! same blocks by priority; at one priority areas before lines before points; then by the features' numbers (RCID).
#![tactic(auto)]

mod block;
mod blocks;
mod drawing;
mod items;
mod laws;
mod lines;
mod print;
mod sources;

pub use block::block_of;
pub use blocks::{NamedBlock, blocks_of};
pub use drawing::{DrawList, Drawn, draw_cell};
pub use laws::{blocks_are_by_name, drawings_are_one};
pub use lines::print_drawing;
pub use print::print_item;
