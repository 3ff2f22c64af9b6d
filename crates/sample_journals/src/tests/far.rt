//! A desk with a bank whose closed gate stands far behind, where a file in memory would be too long.
//!
//! A bank has at most 268,435,456 bytes, and a record that passes them is refused. To come near that the bank is made
//! up as it is read, and what is written goes to a short file, where it fails.

ghost use Rattle.std.specs.Prelude.{◌≡◌, ◌≤◌, ⊤, [], false, IfOk, OnOk, length};
ghost use Rattle.std.proofs.Common.{refl};
ghost use Rattle.chart_ports.specs.Count.{HasCause};

use chart_ports::{Desk, Failed};
use sample_devices::Untold;

/// A bank that is a checkpoint of zeros up to a gate is read, and all else goes to another desk.
#[derive(Drop)]
pub struct Far {
    pub near: Untold,
    pub gate: u64,
}

/// Reads the bank from its start on: the layout 0, the length of the checkpoint in seven bytes, and zeros.
fn read_far(gate: u64, buf: &mut [u8]) {
    buf.fill(0);
    let checkpoint = gate.saturating_sub(8).to_be_bytes();
    for (to, from) in buf.iter_mut().zip(checkpoint) {
        *to = from;
    }
}

impl Desk for Far {
    ghost use Rattle.chart_ports.specs.MemoryDesk.{calls_of};

    ghost tells = { false };

    ghost contents = { λ _ _. [] };

    ghost may_leave = { λ _ _ _. ⊤ };

    ghost said = { λ _. [] };

    ghost clock = { λ _. 0 };

    ghost might = { λ _ _ _ said. said ≡ [] };

    ghost faults = { λ far. (calls_of far.near.memory).faults };

    fn length(&mut self, file: u8) -> Result<u64, Failed> {
        let _ = self.near.length(file)?;
        Ok(self.gate.saturating_add(1))
    }

    fn read_at(&mut self, file: u8, at: u64, buf: &mut [u8]) -> Result<usize, Failed> {
        let _ = self.near.read_at(file, at, buf)?;
        read_far(self.gate, buf);
        Ok(buf.len())
    }

    fn write_at(&mut self, file: u8, at: u64, bytes: &[u8]) -> Result<(), Failed> {
        self.near.write_at(file, at, bytes)
    }

    fn cut(&mut self, file: u8, length: u64) -> Result<(), Failed> {
        self.near.cut(file, length)
    }

    fn sync(&mut self, file: u8) -> Result<(), Failed> {
        self.near.sync(file)
    }

    fn say(&mut self, bytes: &[u8]) -> Result<(), Failed> {
        self.near.say(bytes)
    }

    ghost present = { λ _ _ _. tt };

    ghost counts_now = { λ _ _ _ _ _ _. refl };

    ghost only_now = { λ _ _ _ _ same. (λ _. tt, same) };
}
