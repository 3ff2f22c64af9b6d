//! A desk in memory of which contracts see nothing.
//!
//! A call on a desk that tells its files has conditions, as that a write begins at their end at most. A test that tries
//! any place would have to show them, and here it needn't.

ghost use Rattle.std.specs.Prelude.{◌≡◌, ◌≤◌, ⊤, [], false, IfOk, OnOk, length};
ghost use Rattle.std.proofs.Common.{refl};
ghost use Rattle.chart_ports.specs.Count.{HasCause};

use chart_ports::{Desk, Failed, MemoryDesk};

/// A desk in memory of which contracts see nothing, so that a call on one of its files owes nothing of what the file
/// holds.
#[derive(Drop)]
pub struct Untold {
    pub memory: MemoryDesk,
}

impl Desk for Untold {
    ghost use Rattle.chart_ports.specs.MemoryDesk.{calls_of};

    ghost tells = { false };

    ghost contents = { λ _ _. [] };

    ghost may_leave = { λ _ _ _. ⊤ };

    ghost said = { λ _. [] };

    ghost clock = { λ _. 0 };

    ghost might = { λ _ _ _ said. said ≡ [] };

    ghost faults = { λ untold. (calls_of untold.memory).faults };

    fn length(&mut self, file: u8) -> Result<u64, Failed> {
        self.memory.length(file)
    }

    fn read_at(&mut self, file: u8, at: u64, buf: &mut [u8]) -> Result<usize, Failed> {
        self.memory.read_at(file, at, buf)
    }

    fn write_at(&mut self, file: u8, at: u64, bytes: &[u8]) -> Result<(), Failed> {
        self.memory.write_at(file, at, bytes)
    }

    fn cut(&mut self, file: u8, length: u64) -> Result<(), Failed> {
        self.memory.cut(file, length)
    }

    fn sync(&mut self, file: u8) -> Result<(), Failed> {
        self.memory.sync(file)
    }

    fn say(&mut self, bytes: &[u8]) -> Result<(), Failed> {
        self.memory.say(bytes)
    }

    ghost present = { λ _ _ _. tt };

    ghost counts_now = { λ _ _ _ _ _ _. refl };

    ghost only_now = { λ _ _ _ _ same. (λ _. tt, same) };
}
