//! The shapes of features, made of the nodes and edges that they point to (S-57 Part 3, chain-node
//! topology).
//!
//! An edge is stored once for all areas that it bounds, so a ring isn't there as a list of points: it is found by the
//! nodes at which the edges of an area meet. Closure, drawings and routes all ask for these shapes here.
#![tactic(auto)]

mod edge;
mod laws;
mod line;
mod presence;
mod ring;
mod shape;
mod trace;

pub use edge::{end_names, point};
pub use laws::{rings_are_shortest, shapes_are_kept};
pub use line::{Line, LineList, edge_line};
pub use presence::{has_line, has_shape};
pub use ring::{RingList, rings};
pub use shape::{Shape, feature_shape};
