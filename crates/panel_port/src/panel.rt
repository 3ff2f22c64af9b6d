//! What a display panel is.
//!
//! A panel may fail in the middle of a call, so what it shows isn't told after an error, until it is cleared. Blocks
//! stand under the keys of their features, so that one which changed is shown anew without the others.

ghost use Rattle.std.specs.Prelude.{◌≡◌, ◌≢◌, ◌≤◌, ℕ, Bool, Option, None, IfSome, IsErrOf, OnErr, OnOk};
ghost use Rattle.std.specs.FinMap as map;
ghost use Rattle.chart_ports.specs.Count.{Rose, one_more};
ghost use Rattle.panel_port.specs.Panel.{Scene, summary_of, told_where, with_block, without_block};
ghost use Rattle.panel_port.specs.declared.summary.Summary.{Summary};

use crate::error::PanelError;
use crate::summary::Summary;
use chart_model::{Block, PanelKey};
use std::alloc::Global;

/// A display panel. It shows blocks, each under the key of its feature.
///
/// After an error nothing is told of what it shows, until it is cleared.
pub trait Panel: Drop {
    /// Whether contracts see the scene, but from an error to the next `clear` that succeeds.
    ghost tells: { Self → Bool };

    /// The blocks that are shown, by their keys, where they are told.
    ghost scene: { Self → Option Scene };

    /// What `summary` answers.
    ghost numbers: { Self → Summary };

    /// How many calls of `clear`, `put` and `take` were made. At 2^64 - 1 the number stays.
    ghost calls: { Self → ℕ };

    /// How often a call has failed. The number never falls.
    ghost faults: { Self → ℕ };

    /// Takes out all blocks. It takes no memory.
    fn clear(&mut self) -> Result<(), PanelError>
        ensures ok { OnOk result (scene self.new ≡ told_where (tells self.old) map.empty) }
        ensures err { OnErr result (scene self.new ≡ None) }
        ensures tells { tells self.new ≡ tells self.old }
        ensures calls { calls self.new ≡ one_more (calls self.old) }

        ensures later { faults self.old ≤ faults self.new }
        ensures failed { IsErrOf result PanelError.Failed → Rose (faults self.old) (faults self.new) }
        ensures memory { result ≢ Err PanelError.NoMemory };

    /// Shows a block under a key, in place of the one that was there.
    fn put(&mut self, alloc: Global, key: PanelKey, block: Block) -> Result<(), PanelError>
        ensures ok { OnOk result (scene self.new ≡ with_block key block (scene self.old)) }
        ensures err { OnErr result (scene self.new ≡ None) }
        ensures tells { tells self.new ≡ tells self.old }
        ensures calls { calls self.new ≡ one_more (calls self.old) }

        ensures later { faults self.old ≤ faults self.new }
        ensures failed { IsErrOf result PanelError.Failed → Rose (faults self.old) (faults self.new) };

    /// Takes out the block under a key, where there is one. It takes no memory.
    fn take(&mut self, key: &PanelKey) -> Result<(), PanelError>
        ensures ok { OnOk result (scene self.new ≡ without_block key.now (scene self.old)) }
        ensures err { OnErr result (scene self.new ≡ None) }
        ensures tells { tells self.new ≡ tells self.old }
        ensures calls { calls self.new ≡ one_more (calls self.old) }

        ensures later { faults self.old ≤ faults self.new }
        ensures failed { IsErrOf result PanelError.Failed → Rose (faults self.old) (faults self.new) }
        ensures memory { result ≢ Err PanelError.NoMemory };

    /// How much is shown. It changes nothing, and takes no memory.
    fn summary(&self) -> Summary
        ensures numbers { result ≡ numbers self.now }
        ensures shown { IfSome (scene self.now) (λ shown. result ≡ summary_of shown) };
}
