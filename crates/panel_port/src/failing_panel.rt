//! A panel in memory that fails at the calls on a list.
//!
//! With it a test sees what its caller does when a call fails. Its scene isn't told then, until it is cleared, although
//! the blocks stay: nobody knows what a real panel shows after a failure.

ghost use Rattle.std.specs.Prelude.{◌≡◌, ◌≢◌, ◌≤◌, None, Some, true, IfSome, IsErr, IsErrOf, OnErr, OnOk};
ghost use Rattle.std.specs.Option.{option_copied};
ghost use Rattle.std.specs.FinMap as map;
ghost use Rattle.chart_ports.specs.Calls.{CountsCall, IsNew};
ghost use Rattle.chart_ports.specs.Count.{HasCause, Rose};
ghost use Rattle.panel_port.specs.Panel.{summary_of, with_block, without_block};

use crate::error::PanelError;
use crate::panel::Panel;
use crate::shown::Shown;
use crate::shown_blocks::ShownBlocks;
use crate::summary::Summary;
use chart_model::{Block, PanelKey};
use chart_ports::{Calls, FailingCalls};
use std::alloc::Global;

/// A panel in memory that fails at the calls on a list: then its blocks stay, and its scene is told again when it is
/// cleared. Else it is as a `MemoryPanel`.
#[derive(Debug, Drop)]
pub struct FailingPanel {
    shown: Shown,
    calls: Calls,
}

impl FailingPanel {
    ghost use Rattle.panel_port.specs.FailingPanel.{blocks_of, scene_of, calls_of};

    /// A panel without a block, of which no call was made, and the numbers, from 1, of the calls of `clear`, `put` and
    /// `take` that are to fail. It takes no memory.
    pub fn new(alloc: Global, calls: FailingCalls) -> FailingPanel
        ensures scene { scene_of result ≡ Some map.empty }
        ensures calls { IsNew calls (calls_of result) }
    {
        FailingPanel {
            shown: Shown::new(alloc),
            calls: Calls::new(calls),
        }
    }

    /// The blocks that are shown, where they are told.
    pub fn scene(&self) -> Option<&ShownBlocks>
        ensures { option_copied result ≡ scene_of self.now }
    {
        self.shown.scene()
    }

    /// Counts a call. Where it is to fail, nothing is told any more.
    fn begin(&mut self) -> Result<(), PanelError>
        ensures ok { OnOk result (scene_of self.new ≡ scene_of self.old) }
        ensures err { OnErr result (scene_of self.new ≡ None) }
        ensures kept { blocks_of self.new ≡ blocks_of self.old }
        ensures counted { CountsCall (calls_of self.old) (calls_of self.new) (IsErr result) }
        ensures cause { HasCause (calls_of self.old).faults (calls_of self.new).faults result }
        ensures memory { result ≢ Err PanelError.NoMemory }
    {
        if self.calls.begin().is_err() {
            self.shown.forget();
            return Err(PanelError::Failed);
        }
        Ok(())
    }
}

impl Panel for FailingPanel {
    ghost use Rattle.panel_port.specs.FailingPanel.{blocks_of, scene_of, calls_of};

    ghost tells = { λ _. true };

    ghost scene = { scene_of };

    ghost numbers = { λ panel. summary_of (blocks_of panel) };

    ghost calls = { λ panel. (calls_of panel).made };

    ghost faults = { λ panel. (calls_of panel).faults };

    fn clear(&mut self) -> Result<(), PanelError>
        ensures ok { OnOk result (scene_of self.new ≡ Some map.empty) }
        ensures err { OnErr result (scene_of self.new ≡ None) }
        ensures kept { OnErr result (blocks_of self.new ≡ blocks_of self.old) }

        ensures later { (calls_of self.old).faults ≤ (calls_of self.new).faults }
        ensures failed { IsErrOf result PanelError.Failed → Rose (calls_of self.old).faults (calls_of self.new).faults }
        ensures memory { result ≢ Err PanelError.NoMemory }

        // It fails exactly at the calls on the list.
        ensures counted { CountsCall (calls_of self.old) (calls_of self.new) (IsErrOf result PanelError.Failed) }
    {
        self.begin()?;
        self.shown.clear();
        Ok(())
    }

    fn put(&mut self, _alloc: Global, key: PanelKey, block: Block) -> Result<(), PanelError>
        ensures ok { OnOk result (scene_of self.new ≡ with_block key block (scene_of self.old)) }
        ensures err { OnErr result (scene_of self.new ≡ None) }
        ensures kept { OnErr result (blocks_of self.new ≡ blocks_of self.old) }

        ensures later { (calls_of self.old).faults ≤ (calls_of self.new).faults }
        ensures failed { IsErrOf result PanelError.Failed → Rose (calls_of self.old).faults (calls_of self.new).faults }

        // It fails exactly at the calls on the list; another may want memory.
        ensures counted { CountsCall (calls_of self.old) (calls_of self.new) (IsErrOf result PanelError.Failed) }
    {
        self.begin()?;
        match self.shown.put(key, block) {
            Ok(()) => Ok(()),
            Err(_) => Err(PanelError::NoMemory),
        }
    }

    fn take(&mut self, key: &PanelKey) -> Result<(), PanelError>
        ensures ok { OnOk result (scene_of self.new ≡ without_block key.now (scene_of self.old)) }
        ensures err { OnErr result (scene_of self.new ≡ None) }
        ensures kept { OnErr result (blocks_of self.new ≡ blocks_of self.old) }

        ensures later { (calls_of self.old).faults ≤ (calls_of self.new).faults }
        ensures failed { IsErrOf result PanelError.Failed → Rose (calls_of self.old).faults (calls_of self.new).faults }
        ensures memory { result ≢ Err PanelError.NoMemory }

        // It fails exactly at the calls on the list.
        ensures counted { CountsCall (calls_of self.old) (calls_of self.new) (IsErrOf result PanelError.Failed) }
    {
        self.begin()?;
        self.shown.take(key);
        Ok(())
    }

    /// How many blocks and items it has in its memory, told or not.
    fn summary(&self) -> Summary
        ensures numbers { result ≡ summary_of (blocks_of self.now) }
        ensures shown { IfSome (scene_of self.now) (λ shown. result ≡ summary_of shown) }
    {
        self.shown.summary()
    }
}
