//! The run of a script over the store that a desk keeps.
//!
//! The store is opened before a byte of the script is asked for. So where its files are no store's, nothing was
//! answered by what they seemed to hold, and they are left as they were.

ghost use Rattle.std.specs.Prelude.{◌≡◌, ◌+◌, ◌<◌, ◌≤◌, ◌⊎◌, [], ℕ, IsTrue, false, length, vec_len, Ok, Err};
ghost use Rattle.std.specs.Prelude.{option_map};
ghost use Rattle.chart_ports.specs.Count.{IsSteady, Rose, RoseBy};
ghost use Rattle.chart_ports.specs.Disk.{SameFiles};
ghost use Rattle.chart_ports.specs.Moments.{MayBeLeft, images_of};
ghost use Rattle.chart_store.specs.Images.{Reading, StandFor, read_of};
ghost use Rattle.chart_store.specs.Store.{LeavesBefore, LeavesReading};
ghost use Rattle.date_display.specs.Days.{date_of};
ghost use Rattle.session_core.specs.Model.{portrayal_with};
ghost use Rattle.ecdis_cli.specs.Counted.{most_at_opening, most_in_bank};
ghost use Rattle.ecdis_cli.specs.Devices.{KeepsDevices, LeavesBetween, panels_in};
ghost use Rattle.ecdis_cli.specs.Limits.{SCRIPT_LIMIT};
ghost use Rattle.ecdis_cli.specs.Run.{Ran, model_at, outside_of};
ghost use Rattle.ecdis_cli.specs.Status.{is_early};

use crate::run::devices::Devices;
use crate::run::rounds::run_script;
use crate::run::status::Status;
use chart_model::Settings;
use chart_ports::{Desk, Shelf, Source};
use chart_store::open_store;
use date_display::Day;
use lookup_table::Table;
use session_core::{Session, turns_follow_their_commands};
use std::alloc::Global;
use std::sync::ledger::Ledger;

/// How many bytes of the script are asked for at once.
const BUFFER: usize = 16_384;

/// Opens the store, and answers the script. Cells are drawn by the table and the settings, with a day of their charts on
/// that day.
pub fn run_opened<S: Source, L: Shelf, D: Desk, C: Ledger>(
    alloc: Global,
    table: Table,
    settings: Settings,
    day: Option<Day>,
    script: &mut S,
    devices: &mut Devices<L, D, C>,
) -> Status
    // From files that read as what is held, the replies to the script's lines are said, panels go along with them, and
    // where the files stand for that, a crash leaves what they acknowledge, or what one might have left before. No more
    // is counted than the opening and the lines may count.
    ensures ran { IsTrue S.tells → IsTrue D.tells → (opening : Reading) →
        read_of (images_of (D.contents devices.old.desk.now)) ≡ Ok opening →
        Ran L.tells (L.files devices.old.shelf.now)
        (model_at (portrayal_with table settings (option_map date_of day)) (vec_len devices.old.panels.now) opening)
        result
        (StandFor (images_of (D.contents devices.old.desk.now)) opening.state)
        (LeavesBetween D.clock D.might devices.old devices.new)
        (LeavesBefore (D.may_leave devices.old.desk.now) (D.said devices.old.desk.now))
        (MayBeLeft (D.may_leave devices.new.desk.now))
        (outside_of (S.left script.old) (D.said devices.old.desk.now) (L.faults devices.old.shelf.now)
        (devices.old.steps.now + most_at_opening (D.contents devices.old.desk.now) opening)
        (panels_in Panel-box devices.old))
        (outside_of (S.left script.new) (D.said devices.new.desk.now) (L.faults devices.new.shelf.now)
        devices.new.steps.now (panels_in Panel-box devices.new)) }

    // A run that is done has read the whole script, which is no longer than may be.
    ensures done { result ≡ Status.Done → IsTrue (S.is_at_end script.new) }
    ensures read { IsTrue S.tells → result ≡ Status.Done → S.left script.new ≡ [] }
    ensures short { IsTrue S.tells → result ≡ Status.Done → length (S.left script.old) ≤ SCRIPT_LIMIT }

    // Files that are no store's are told by their first fault, unless the disk fails or memory runs out. Nothing is
    // read or said then, no panel is touched, no more is counted than the bank may count, and they are left as they
    // were.
    ensures foreign { (bank at : ℕ) → IsTrue D.tells → result ≡ Status.Foreign bank at →
        read_of (images_of (D.contents devices.old.desk.now)) ≡ Err (record { bank = bank; at = at }) }
    ensures refused_files { (bank at : ℕ) → IsTrue D.tells →
        read_of (images_of (D.contents devices.old.desk.now)) ≡ Err (record { bank = bank; at = at }) →
        (result ≡ Status.Foreign bank at) ⊎ ((result ≡ Status.DeskFault) ⊎ (result ≡ Status.NoMemory)) }
    ensures unread { (bank at : ℕ) → result ≡ Status.Foreign bank at →
        (script.new ≡ script.old) × (devices.new.panels.now ≡ devices.old.panels.now) }
    ensures unopened { (bank at : ℕ) → IsTrue D.tells →
        read_of (images_of (D.contents devices.old.desk.now)) ≡ Err (record { bank = bank; at = at }) →
        (script.new ≡ script.old) × (D.said devices.new.desk.now ≡ D.said devices.old.desk.now)
        × (devices.new.panels.now ≡ devices.old.panels.now)
        × (devices.new.steps.now ≤ devices.old.steps.now + most_in_bank (D.contents devices.old.desk.now)) }
    ensures refused_moments { (bank at : ℕ) → IsTrue D.tells →
        read_of (images_of (D.contents devices.old.desk.now)) ≡ Err (record { bank = bank; at = at }) →
        LeavesBetween D.clock D.might devices.old devices.new (LeavesReading (D.contents devices.old.desk.now)
        (D.may_leave devices.old.desk.now) (D.said devices.old.desk.now)) }
    ensures left { (bank at : ℕ) → IsTrue D.tells → result ≡ Status.Foreign bank at →
        SameFiles (D.contents devices.old.desk.now) (D.contents devices.new.desk.now) }

    // Each other end has its cause, and none is of the words or the tables.
    ensures begun { is_early result ≡ false }
    ensures script_failed { result ≡ Status.ScriptFault → Rose (S.faults script.old) (S.faults script.new) }
    ensures script_long { result ≡ Status.ScriptLong →
        RoseBy (SCRIPT_LIMIT + 1) (S.given script.old) (S.given script.new) }
    ensures script_over { IsTrue S.tells → result ≡ Status.ScriptLong → SCRIPT_LIMIT < length (S.left script.old) }
    ensures desk_failed { result ≡ Status.DeskFault →
        Rose (D.faults devices.old.desk.now) (D.faults devices.new.desk.now) }

    // No count of faults falls, and files stay.
    ensures script_later { S.faults script.old ≤ S.faults script.new }
    ensures keeps { KeepsDevices L.tells L.files L.faults D.faults devices.old devices.new }
{
    turns_follow_their_commands();
    let store = match open_store(alloc, devices.desk, devices.steps) {
        Ok(store) => store,
        Err(fault) => return Status::of_opening(fault),
    };
    let panels = devices.panels.len();
    let Ok(session) = Session::new(alloc, store, table, settings, day, panels, devices.steps) else {
        return Status::NoMemory;
    };
    let Ok(mut buffer) = vec![in alloc; 0; BUFFER] else {
        return Status::NoMemory;
    };
    run_script(alloc, &mut buffer, session, script, devices)
}
