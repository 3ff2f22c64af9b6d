//! Conditional symbology procedures (IHO S-52, `CS`) of hazards: obstructions, underwater rocks and wrecks.
//!
//! The rules, and the names of colours, patterns, styles and symbols, are this project's own, in the manner of IHO
//! S-52; they are those of no edition of it. Depths are whole centimetres.
//!
//! What is drawn of a hazard goes by the class of its feature and not by the procedure's name, so the two procedures
//! are one. `push_hazard` adds the items to those of a block, where the feature was found already, and asks depth areas
//! that were made once for the whole drawing.
#![tactic(auto)]

mod edges;
mod hazard;
mod point;
mod symbol;

pub use hazard::{obstrn04, push_hazard, wrecks02};
