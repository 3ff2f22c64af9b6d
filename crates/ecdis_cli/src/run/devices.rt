//! What a run works with.
//!
//! What answers a line is lent these four together, and not the script: no line can read on in it.

use chart_ports::{Desk, Shelf, Steps};
use panel_port::Panel;
use std::sync::ledger::Ledger;

/// What a run works with, lent for as long as it takes: the shelf that files are fetched from, the desk that keeps the
/// store and says the replies, the panels that are painted, and the count of steps.
#[derive(Drop)]
pub struct Devices<'l, 'd, 'p, 's, L: Shelf, D: Desk, C: Ledger> {
    pub shelf: &'l mut L,
    pub desk: &'d mut D,
    pub panels: &'p mut Vec<Box<dyn Panel>>,
    pub steps: &'s mut Steps<C>,
}
