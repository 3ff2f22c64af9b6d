//! A chart that a picture shows.

use chart_model::{Cell, Key};
use draw_list::DrawList;

/// A chart: its cell under its key, and the cell's drawing.
#[derive(Debug, Drop)]
pub struct Chart<'a> {
    pub key: Key,
    pub cell: &'a Cell,
    pub drawing: DrawList,
}
