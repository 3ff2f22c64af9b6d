//! A panel that keeps numbers only.
//!
//! A panel need not tell its scene, and this one can't: code over any panel has to do without it. What it counts is
//! only what it was given.

ghost use Rattle.std.specs.Prelude.{◌≡◌, None, false, IsOk};
ghost use Rattle.chart_ports.specs.Count.{one_more};
ghost use Rattle.panel_port.specs.CountingPanel.{none_put, one_put};

use crate::error::PanelError;
use crate::panel::Panel;
use crate::summary::Summary;
use chart_model::{Block, PanelKey};
use std::alloc::Global;

const NOTHING: Summary = Summary {
    blocks: 0,
    items: 0,
};

/// A panel that keeps numbers only, and doesn't tell its scene. It never fails, and takes no memory.
///
/// It counts the calls of `put` since it was cleared, and the items of the blocks that these put. It has no keys, so it
/// can't know whether a block takes the place of another, nor what is taken out: a block that is put twice counts
/// twice, and a `take` leaves the numbers.
#[derive(Debug, Drop)]
pub struct CountingPanel {
    numbers: Summary,
    /// How many calls were made. At 2^64 - 1 the number stays.
    calls: u64,
}

impl CountingPanel {
    ghost use Rattle.panel_port.specs.CountingPanel.{numbers_of, calls_of};

    /// A panel on which nothing was put, and of which no call was made.
    pub fn new() -> CountingPanel
        ensures numbers { numbers_of result ≡ none_put }
        ensures calls { calls_of result ≡ 0 }
    {
        CountingPanel {
            numbers: NOTHING,
            calls: 0,
        }
    }

    /// Counts a call.
    fn count_call(&mut self)
        ensures counted { calls_of self.new ≡ one_more (calls_of self.old) }
        ensures numbers { numbers_of self.new ≡ numbers_of self.old }
    {
        self.calls = self.calls.saturating_add(1);
    }
}

impl Panel for CountingPanel {
    ghost use Rattle.panel_port.specs.CountingPanel.{numbers_of, calls_of};

    ghost tells = { λ _. false };

    ghost scene = { λ _. None };

    ghost numbers = { numbers_of };

    ghost calls = { calls_of };

    ghost faults = { λ _. 0 };

    fn clear(&mut self) -> Result<(), PanelError>
        ensures numbers { numbers_of self.new ≡ none_put }
        ensures calls { calls_of self.new ≡ one_more (calls_of self.old) }
        ensures never_fails { IsOk result }
    {
        self.count_call();
        self.numbers = NOTHING;
        Ok(())
    }

    fn put(&mut self, _alloc: Global, _key: PanelKey, block: Block) -> Result<(), PanelError>
        ensures numbers { numbers_of self.new ≡ one_put block (numbers_of self.old) }
        ensures calls { calls_of self.new ≡ one_more (calls_of self.old) }
        ensures never_fails { IsOk result }
    {
        self.count_call();
        self.numbers.blocks = self.numbers.blocks.saturating_add(1);
        let items = block.items.as_slice().len() as u64;
        self.numbers.items = self.numbers.items.saturating_add(items);
        Ok(())
    }

    fn take(&mut self, _key: &PanelKey) -> Result<(), PanelError>
        ensures numbers { numbers_of self.new ≡ numbers_of self.old }
        ensures calls { calls_of self.new ≡ one_more (calls_of self.old) }
        ensures never_fails { IsOk result }
    {
        self.count_call();
        Ok(())
    }

    fn summary(&self) -> Summary
        ensures { result ≡ numbers_of self.now }
    {
        self.numbers
    }
}
