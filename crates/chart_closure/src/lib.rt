//! Whether a chart is closed (S-57 Part 3, chain-node topology).
//!
//! Each spatial pointer (VRPT, FSPT) names a record of the cell of a kind that may stand there; each edge has one begin
//! node and one end node, with coordinates; each area has rings. References between features (FFPT) aren't looked at.
#![tactic(auto)]

mod closure;
mod fault;
mod laws;
mod pointers;

pub use closure::{check, check_at};
pub use fault::ClosureFault;
pub use laws::{closed_charts_stay_closed, first_is_least};
