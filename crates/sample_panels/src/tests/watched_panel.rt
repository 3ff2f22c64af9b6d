//! A panel whose blocks the test holds too.
//!
//! Panels stand in boxes, and a box doesn't show what a panel shows. This one puts its blocks where the test finds them.
//! No contract knows what a cell holds, so it tells nothing of its scene.

ghost use Rattle.std.specs.Prelude.{None, false};

use chart_model::{Block, PanelKey};
use chart_ports::Calls;
use panel_port::{Panel, PanelError, ShownBlocks, Summary};
use std::alloc::Global;
use std::cell::RefCell;
use std::rc::Rc;

/// The blocks of a panel, which the panel and the test hold.
pub type Watched = Rc<RefCell<ShownBlocks>>;

/// A panel that puts its blocks where the test finds them, and fails at the calls on a list: then the blocks stay. As
/// its summary it answers how many calls were made, and how many of them failed.
#[derive(Drop)]
pub struct WatchedPanel {
    blocks: Watched,
    calls: Calls,
}

impl WatchedPanel {
    /// A panel with these blocks, of which these calls were made.
    pub fn new(blocks: Watched, calls: Calls) -> WatchedPanel {
        WatchedPanel { blocks, calls }
    }
}

fn cleared(blocks: &Watched) -> bool {
    match blocks.try_borrow_mut() {
        Ok(mut blocks) => {
            blocks.clear();
            true
        }
        Err(_) => false,
    }
}

fn has_put(blocks: &Watched, key: PanelKey, block: Block) -> bool {
    match blocks.try_borrow_mut() {
        Ok(mut blocks) => blocks.insert(key, block).is_ok(),
        Err(_) => false,
    }
}

fn has_taken(blocks: &Watched, key: PanelKey) -> bool {
    match blocks.try_borrow_mut() {
        Ok(mut blocks) => {
            let _ = blocks.remove(key);
            true
        }
        Err(_) => false,
    }
}

impl Panel for WatchedPanel {
    ghost tells = { λ _. false };

    ghost scene = { λ _. None };

    ghost numbers = { λ panel. record { blocks = panel.calls.made; items = panel.calls.faults } };

    ghost calls = { λ panel. panel.calls.made };

    ghost faults = { λ panel. panel.calls.faults };

    fn clear(&mut self) -> Result<(), PanelError> {
        let is_listed = self.calls.next_fails();
        let is_done = !is_listed && cleared(&self.blocks);
        match self.calls.end(is_listed, is_done) {
            Ok(()) => Ok(()),
            Err(_) => Err(PanelError::Failed),
        }
    }

    fn put(&mut self, _alloc: Global, key: PanelKey, block: Block) -> Result<(), PanelError> {
        let is_listed = self.calls.next_fails();
        let is_done = !is_listed && has_put(&self.blocks, key, block);
        match self.calls.end(is_listed, is_done) {
            Ok(()) => Ok(()),
            Err(_) => Err(PanelError::Failed),
        }
    }

    fn take(&mut self, key: &PanelKey) -> Result<(), PanelError> {
        let is_listed = self.calls.next_fails();
        let is_done = !is_listed && has_taken(&self.blocks, *key);
        match self.calls.end(is_listed, is_done) {
            Ok(()) => Ok(()),
            Err(_) => Err(PanelError::Failed),
        }
    }

    fn summary(&self) -> Summary {
        Summary {
            blocks: self.calls.made,
            items: self.calls.faults,
        }
    }
}
