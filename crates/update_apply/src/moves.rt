//! How many items of lists the changes of a file may move.
//!
//! An insertion into a list and a deletion from it move the items behind their place, so that a small file, which
//! edits a long list again and again, can ask for more work than there is time for. No file that was made from a
//! chart comes near the budget.

ghost use Rattle.std.specs.Prelude.{◌≡◌, ◌+◌, ◌<◌, min, OnOk, OnErr};
ghost use Rattle.update_apply.specs.Moves.{cost_of, items_moved, items_shifted};

use crate::judge::HeldRecord;
use chart_model::codes::MODIFY;
use chart_model::{Control, MOST_SET_IN_PLACE, UpdateRecord};
use std::alloc::AllocError;
use std::marker::Model;

/// The most items that the changes of one file may move, so that a load ends within seconds.
const BUDGET: usize = 268_435_456;

/// How many more items are moved for a file, at most as many as the budget has. Contracts see the number.
#[derive(Debug, Drop)]
pub struct Moves {
    left: usize,
}

impl Model for Moves {
    ghost use Rattle.std.specs.Prelude.{ℕ, ◌≤◌};

    ghost Value = { ℕ };

    ghost view = { λ moves. moves.left };

    ghost invariant = { λ moves. moves.left ≤ 268435456 };
}

impl Moves {
    /// The budget of a file.
    pub fn of_file() -> Moves
        ensures { result ≡ 268435456 }
    {
        Moves { left: BUDGET }
    }

    /// Takes what a change may move of the record that is kept under its name.
    ///
    /// # Errors
    ///
    /// `AllocError` exactly where less is left, and then nothing is taken.
    pub(crate) fn take(
        &mut self,
        held: Option<HeldRecord>,
        change: &UpdateRecord,
    ) -> Result<(), AllocError>
        ensures ok { OnOk result (self.old ≡ self.new + cost_of held change.now) }
        ensures err { OnErr result (self.new ≡ self.old) }
        ensures short { OnErr result (self.old < cost_of held change.now) }
    {
        let cost = cost_of(held, change);
        if self.left < cost {
            return Err(AllocError);
        }
        self.left -= cost;
        Ok(())
    }
}

/// The items of a list that an edit may move: all where items are inserted or deleted. A replacement moves none, and
/// writes as many as the file has of them.
fn items_shifted(edit: Option<Control>, length: usize) -> usize
    ensures { result ≡ items_shifted edit length }
{
    match edit {
        Some(control) if control.instruction != MODIFY => length,
        _ => 0,
    }
}

/// The items that a modification may move: those of the lists that it shifts, and the attributes for each that it
/// sets. A number that doesn't fit is over any budget.
fn items_moved(held: &HeldRecord, change: &UpdateRecord) -> usize
    ensures { result ≡ min (items_moved held.now change.now) usize.MAX }
{
    let settings = change.attrs.as_slice().len().min(MOST_SET_IN_PLACE);
    held.attrs
        .saturating_mul(settings)
        .saturating_add(items_shifted(change.pointer_edit, held.pointers))
        .saturating_add(items_shifted(change.coord_edit, held.coords))
        .saturating_add(items_shifted(change.related_edit, held.related))
}

/// The items that a change may move.
fn cost_of(held: Option<HeldRecord>, change: &UpdateRecord) -> usize
    ensures { result ≡ min (cost_of held change.now) usize.MAX }
{
    match held {
        Some(held) if change.ruin == MODIFY => items_moved(&held, change),
        _ => 0,
    }
}
