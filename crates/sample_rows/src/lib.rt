//! Sample charts, from which tests of other crates are made.
//!
//! A chart is rows of a few numbers and texts (`rows`), each a change of a record (`changes`), which are made one after
//! the other (`charts`). Whatever a row says, it is a change: a number that its field can't have is taken for another.
//! What is drawn of a chart is targets and texts (`drawn`).
#![tactic(auto)]

mod changes;
mod charts;
mod drawn;
mod lists;
mod rows;

pub use changes::change;
pub use chart_model::{Foid, Name, Target};
pub use charts::{add_rows, chart};
pub use drawn::{Drawn, SETTINGS, are_items};
pub use rows::{BARE, Edit, FOID, Item, Mark, Row, Setting};
