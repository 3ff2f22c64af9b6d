//! A store opened.
//!
//! Its files are brought to the disk before they are read, so that a crash cannot leave other files than those that were
//! read.

ghost use Rattle.std.specs.Prelude.{◌≡◌, ◌<◌, ◌≤◌, ◌+◌, ℕ, true, None, Ok};
ghost use Rattle.std.specs.Prelude.{Err, IfOk, IfErr, IsErrOf, IsTrue, OnOk, length};
ghost use Rattle.bank_journal.specs.Bank.{gate_of};
ghost use Rattle.bank_journal.specs.Fault.{HasDeskCause};
ghost use Rattle.bank_journal.specs.Moments.{nine_zeros};
ghost use Rattle.bank_pair.specs.Head.{bank_named, content_named};
ghost use Rattle.chart_ports.specs.Disk.{LeavesNoMoreOfOthers, Only, SameFiles, SameOthers};
ghost use Rattle.chart_ports.specs.Moments.{LeavesOnly, images_of};
ghost use Rattle.chart_store.specs.declared.open_fault.OpenFault.TheVariants.{DeskFault};
ghost use Rattle.chart_store.specs.Images.{StandFor, most_steps_from, most_steps_in, read_of, state_by};
ghost use Rattle.chart_store.specs.Checkpoint.{checkpoint_in};
ghost use Rattle.chart_store.specs.Opened.{ForeignHas};
ghost use Rattle.chart_store.specs.Store.{IsKept, LeavesReading, count_of, is_sound, save_of, state_of, used_of};

use crate::checkpoint::read_checkpoint;
use crate::live::LiveCells;
use crate::open_fault::OpenFault;
use crate::replay::replay;
use crate::store::Store;
use bank_journal::BankContent;
use bank_pair::open_pair;
use chart_ports::{Desk, Steps};
use command_codec::commands_are_spelled;
use std::alloc::Global;
use std::sync::ledger::Ledger;

/// The place of a bank's checkpoint: the layout and the length stand before it.
const CHECKPOINT: u64 = 8;

/// What the content of a bank holds: its checkpoint, and then the commands of its records one after the other. The bytes
/// of the bank are let go behind the last of them.
///
/// # Errors
///
/// `Foreign` with the checkpoint's place, where it says no state with closed charts; or else with the place of the first
/// gate whose record holds no command that is accepted; `NoMemory`.
fn hold<C: Ledger>(
    alloc: Global,
    bank: u8,
    content: BankContent,
    steps: &mut Steps<C>,
) -> Result<LiveCells, OpenFault>
    requires { gate_of content < 9223372036854775808 }
    ensures state { IfOk result (λ live. state_by content ≡ Ok live) }
    ensures foreign { IfErr result (ForeignHas (λ place.
        (place.bank ≡ bank) × (state_by content ≡ Err place.at))) }
    ensures no_desk { ¬ IsErrOf result DeskFault }
    ensures at_most { steps.new
        ≤ steps.old + most_steps_from (checkpoint_in content.checkpoint) content.bodies }
{
    let Some(first) = read_checkpoint(alloc, content.checkpoint())? else {
        return Err(OpenFault::Foreign(bank, CHECKPOINT));
    };
    let gate = CHECKPOINT + content.checkpoint().len() as u64;
    replay(alloc, first, bank, gate, &content, steps)
}

/// Opens the store in a desk's files: what is held is what the checkpoint of the bank that the head names says, with its
/// charts from their own bytes, and then the commands of that bank, carried out one after the other.
///
/// # Errors
///
/// `Foreign` exactly where the files are no store's, with their first fault in the bank that the head names: no header,
/// or a record that is cut short; then a checkpoint that says no state, or a chart that isn't closed; then the first
/// record whose body spells no command, or one that is refused where it stands. `DeskFault` only where the desk's count
/// rose; `NoMemory`.
pub fn open_store<D: Desk, C: Ledger>(
    alloc: Global,
    desk: &mut D,
    steps: &mut Steps<C>,
) -> Result<Store, OpenFault>
    // What is held is what a read of the files gives, and files that are refused have their first fault there.
    ensures state { IsTrue D.tells → IfOk result (λ store. read_of (images_of (D.contents desk.old))
        ≡ Ok (record { state = state_of store; used = used_of store })) }
    ensures foreign { IsTrue D.tells → IfErr result (ForeignHas (λ place.
        read_of (images_of (D.contents desk.old)) ≡ Err place)) }
    ensures kept { IsTrue D.tells → IfOk result (IsKept (D.contents desk.new) (D.may_leave desk.new)) }
    // What a read gives then stands for what is held, where it did before.
    ensures stood { IsTrue D.tells → IfOk result (λ store. StandFor (images_of (D.contents desk.old)) (state_of store) →
        StandFor (images_of (D.contents desk.new)) (state_of store)) }
    ensures idle { IfOk result (λ store. save_of store ≡ None) }
    ensures count { IfOk result (λ store. count_of store ≡ 0) }
    ensures sound { IfOk result (λ store. is_sound store ≡ true) }

    // Nine bytes or fewer of the bank that the head names are replaced, and more are left; files that are refused are
    // left too.
    ensures short { IsTrue D.tells → length (D.contents desk.old (bank_named (D.contents desk.old 0))) ≤ 9 →
        OnOk result (D.contents desk.new (bank_named (D.contents desk.old 0)) ≡ nine_zeros) }
    ensures long { IsTrue D.tells → 9 < length (D.contents desk.old (bank_named (D.contents desk.old 0))) →
        OnOk result (SameFiles (D.contents desk.old) (D.contents desk.new)) }
    ensures others { IsTrue D.tells → OnOk result
        (SameOthers (bank_named (D.contents desk.old 0)) (D.contents desk.old) (D.contents desk.new)) }
    ensures refused { IsTrue D.tells → IfErr result (ForeignHas (λ _.
        SameFiles (D.contents desk.old) (D.contents desk.new))) }
    ensures said { IsTrue D.tells → D.said desk.new ≡ D.said desk.old }

    // A crash at any moment of it leaves what it might have left before, or files that say what a read of them gave.
    ensures moments { IsTrue D.tells → LeavesOnly D.clock D.might desk.old desk.new
        (LeavesReading (D.contents desk.old) (D.may_leave desk.old) (D.said desk.old)) }

    ensures cause { HasDeskCause DeskFault (D.faults desk.old) (D.faults desk.new) result }
    // The charts of the checkpoint are read from their own bytes, so none of its files counts.
    ensures at_most { IsTrue D.tells →
        steps.new ≤ steps.old + most_steps_in (content_named (images_of (D.contents desk.old))) }
{
    commands_are_spelled();
    let (pair, content) = open_pair(alloc, desk)?;
    let live = hold(alloc, pair.file(), content, steps)?;
    Ok(Store::opened(live, pair))
}
