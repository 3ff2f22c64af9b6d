//! A panel in memory, which tells contracts its scene.
//!
//! A clause about what is shown says something of a panel that tells it, as this one does. It counts no fault: want of
//! memory is all that can stop a call.

ghost use Rattle.std.specs.Prelude.{◌≡◌, None, Some, true, IfSome, IsOk, IsOkUnless, OnErr, OnOk};
ghost use Rattle.std.specs.Option.{option_copied};
ghost use Rattle.std.specs.FinMap as map;
ghost use Rattle.chart_ports.specs.Count.{one_more};
ghost use Rattle.panel_port.specs.Panel.{summary_of, with_block, without_block};

use crate::error::PanelError;
use crate::panel::Panel;
use crate::shown::Shown;
use crate::shown_blocks::ShownBlocks;
use crate::summary::Summary;
use chart_model::{Block, PanelKey};
use std::alloc::Global;

/// A panel in memory. It never fails, but for want of memory: then its blocks stay, and its scene is told again when it
/// is cleared.
#[derive(Debug, Drop)]
pub struct MemoryPanel {
    shown: Shown,
    /// How many calls were made. At 2^64 - 1 the number stays.
    calls: u64,
}

impl MemoryPanel {
    ghost use Rattle.panel_port.specs.MemoryPanel.{blocks_of, scene_of, calls_of};

    /// A panel without a block, of which no call was made. It takes no memory.
    pub fn new(alloc: Global) -> MemoryPanel
        ensures scene { scene_of result ≡ Some map.empty }
        ensures calls { calls_of result ≡ 0 }
    {
        MemoryPanel {
            shown: Shown::new(alloc),
            calls: 0,
        }
    }

    /// The blocks that are shown, where they are told.
    pub fn scene(&self) -> Option<&ShownBlocks>
        ensures { option_copied result ≡ scene_of self.now }
    {
        self.shown.scene()
    }

    /// Counts a call.
    fn count_call(&mut self)
        ensures counted { calls_of self.new ≡ one_more (calls_of self.old) }
        ensures scene { scene_of self.new ≡ scene_of self.old }
        ensures blocks { blocks_of self.new ≡ blocks_of self.old }
    {
        self.calls = self.calls.saturating_add(1);
    }
}

impl Panel for MemoryPanel {
    ghost use Rattle.panel_port.specs.MemoryPanel.{blocks_of, scene_of, calls_of};

    ghost tells = { λ _. true };

    ghost scene = { scene_of };

    ghost numbers = { λ panel. summary_of (blocks_of panel) };

    ghost calls = { calls_of };

    ghost faults = { λ _. 0 };

    fn clear(&mut self) -> Result<(), PanelError>
        ensures ok { OnOk result (scene_of self.new ≡ Some map.empty) }
        ensures calls { calls_of self.new ≡ one_more (calls_of self.old) }

        ensures never_fails { IsOk result }
    {
        self.count_call();
        self.shown.clear();
        Ok(())
    }

    fn put(&mut self, _alloc: Global, key: PanelKey, block: Block) -> Result<(), PanelError>
        ensures ok { OnOk result (scene_of self.new ≡ with_block key block (scene_of self.old)) }
        ensures err { OnErr result (scene_of self.new ≡ None) }
        ensures kept { OnErr result (blocks_of self.new ≡ blocks_of self.old) }
        ensures calls { calls_of self.new ≡ one_more (calls_of self.old) }

        ensures fails_by_memory { IsOkUnless result PanelError.NoMemory }
    {
        self.count_call();
        match self.shown.put(key, block) {
            Ok(()) => Ok(()),
            Err(_) => Err(PanelError::NoMemory),
        }
    }

    fn take(&mut self, key: &PanelKey) -> Result<(), PanelError>
        ensures ok { OnOk result (scene_of self.new ≡ without_block key.now (scene_of self.old)) }
        ensures calls { calls_of self.new ≡ one_more (calls_of self.old) }

        ensures never_fails { IsOk result }
    {
        self.count_call();
        self.shown.take(key);
        Ok(())
    }

    /// How many blocks and items it has in its memory, told or not.
    fn summary(&self) -> Summary
        ensures numbers { result ≡ summary_of (blocks_of self.now) }
        ensures shown { IfSome (scene_of self.now) (λ shown. result ≡ summary_of shown) }
    {
        self.shown.summary()
    }
}
