//! What an accepted command did to a store.
//!
//! It is told once the command is on the disk, and names what has to be drawn anew.

use chart_model::{Cell, Held, Key, NameList};

/// What an accepted command did to a store.
#[derive(Debug, Drop)]
pub struct Accepted {
    /// The cell.
    pub key: Key,
    /// The numbers that are held of it now; of a cell that was taken away, those that were.
    pub held: Held,
    /// How many commands were accepted since the store was opened, with this one.
    pub count: u64,
    /// The names whose records differ between the chart before and the chart now, in order.
    pub changed: NameList,
    /// The chart before, where there was one.
    pub old: Option<Cell>,
}
