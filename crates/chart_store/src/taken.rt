//! What an accepted command did.
//!
//! It is what `LiveCells` tells by itself; a store tells it with its count of commands.

use chart_model::{Cell, Held, Key, NameList};

/// What an accepted command did.
#[derive(Debug, Drop)]
pub struct Taken {
    /// The cell.
    pub key: Key,
    /// The numbers that are held of it now; of a cell that was taken away, those that were.
    pub held: Held,
    /// The names whose records differ between the chart before and the chart now, in order.
    pub changed: NameList,
    /// The chart before, where there was one.
    pub old: Option<Cell>,
}
