//! What holds of a store's files.
//!
//! What the session says of a crash is made of these.

ghost use Rattle.std.specs.Prelude.{◌≡◌, [], ℕ, Ok};
ghost use Rattle.bank_journal.specs.Content.{Content};
ghost use Rattle.bank_pair.specs.Head.{content_named};
ghost use Rattle.chart_model.specs.State.{StateValue};
ghost use Rattle.chart_ports.specs.Disk.{LeavesNoMore, SameFiles};
ghost use Rattle.chart_ports.specs.Moments.{MayBeLeft, images_of};
ghost use Rattle.chart_ports.specs.declared.images.Images.{Images};
ghost use Rattle.chart_store.specs.declared.store.Store.{Store};
ghost use Rattle.chart_store.specs.Images.{Holds, StandFor, read_of};
ghost use Rattle.chart_store.specs.Loaded.{nothing_held};
ghost use Rattle.chart_store.specs.Saving.{HasBegun};
ghost use Rattle.chart_store.specs.Store.{IsKept, state_of, used_of};

use chart_ports::Desk;
use command_codec::commands_are_spelled;

/// Files that stand for what is held read as that, and the bank that the head names holds what is read. Three empty files
/// stand for nothing held.
pub fn files_that_stand_are_read()
    ensures stands { (images : Images) (state : StateValue) → StandFor images state →
        (used : ℕ) × (read_of images ≡ Ok (record { state = state; used = used })) }
    ensures holds { (images : Images) (state : StateValue) (used : ℕ) →
        read_of images ≡ Ok (record { state = state; used = used }) →
        (content : Content) × (content_named images ≡ Ok content) × Holds content state }
    ensures empty { StandFor (record { head = []; bank1 = []; bank2 = [] }) nothing_held }
{
    commands_are_spelled();
}

/// What a crash leaves of a store that a desk keeps reads as what is held, with the bytes that are used; and it stands
/// for it, where what a read gives does. A desk that reads the same, and of which a crash leaves no more, keeps the store
/// too.
pub fn kept_stores_are_read<D: Desk>()
    ensures read { (desk : D) (store : Store) (images : Images) → IsKept (D.contents desk) (D.may_leave desk) store →
        MayBeLeft (D.may_leave desk) images →
        read_of images ≡ Ok (record { state = state_of store; used = used_of store }) }
    ensures stands { (desk : D) (store : Store) (images : Images) → IsKept (D.contents desk) (D.may_leave desk) store →
        StandFor (images_of (D.contents desk)) (state_of store) → MayBeLeft (D.may_leave desk) images →
        StandFor images (state_of store) }
    ensures stays { (desk next : D) (store : Store) → IsKept (D.contents desk) (D.may_leave desk) store →
        SameFiles (D.contents desk) (D.contents next) → LeavesNoMore (D.may_leave desk) (D.may_leave next) →
        IsKept (D.contents next) (D.may_leave next) store }
{
    commands_are_spelled();
}

/// A desk that keeps a store keeps it with a save that has begun.
pub fn begun_saves_are_kept<D: Desk>()
    ensures { (desk : D) (slices : ℕ) (old new : Store) → IsKept (D.contents desk) (D.may_leave desk) old →
        HasBegun slices old new → IsKept (D.contents desk) (D.may_leave desk) new }
{}
