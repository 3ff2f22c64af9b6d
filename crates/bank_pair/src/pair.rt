//! Two banks, of which one is the current one, and a save into the other.
//!
//! What is appended while a save goes on is in no checkpoint, so its frames are kept: they are copied behind the
//! checkpoint at the end. Where the other bank's closed gate will stand is counted along, so that an append knows the
//! room in both.

ghost use Rattle.std.specs.Prelude.{◌≡◌, ◌+◌, ◌<◌, ◌≤◌, [], None, length};
ghost use Rattle.std.specs.Option.{ForSome};
ghost use Rattle.std.specs.List.{sum_by};
ghost use Rattle.bank_pair.specs.Saving.{AreSlicesOf};

use bank_journal::{Bank, Framed};
use chart_model::Octets;

/// A checkpoint that is written into the other bank.
#[derive(Debug, Drop)]
pub(crate) struct Save {
    pub(crate) checkpoint: Octets,
    /// In how many slices it is written.
    pub(crate) slices: u32,
    /// How many of them are written.
    pub(crate) written: u32,
    ghost sliced: { AreSlicesOf checkpoint slices },
    ghost within: { written ≤ slices },
}

/// Two banks, and a save from the current one into the other. It keeps no records but those that the save has to copy;
/// the desk is handed in at each call.
#[derive(Debug, Drop)]
pub struct Pair {
    /// The current bank.
    pub(crate) bank: Bank,
    pub(crate) save: Option<Save>,
    /// The records that were appended since the save began.
    pub(crate) since: Vec<Framed>,
    /// Where the closed gate of the other bank will stand, while a save is under way.
    pub(crate) gate: u64,
    ghost idle: { save ≡ None → since.items ≡ [] },
    ghost gated: { ForSome save (λ save.
        gate ≡ 8 + length save.checkpoint + sum_by (λ frame. length frame) since.items) },
    ghost gate_in: { gate < 268435456 },
}

impl Pair {
    ghost use Rattle.std.specs.Prelude.{option_map};
    ghost use Rattle.bank_pair.specs.Handle.{value_of};

    /// The file of the current bank, 1 or 2. It takes no memory.
    pub fn file(&self) -> u8
        ensures { result ≡ (value_of self.now).file }
    {
        self.bank.file()
    }

    /// How many slices of the save that is under way are written, and in how many it is written. It takes no memory.
    pub fn progress(&self) -> Option<(u32, u32)>
        ensures { result ≡ option_map (λ save. (save.written, save.slices)) (value_of self.now).save }
    {
        let save = self.save.as_ref()?;
        Some((save.written, save.slices))
    }
}
