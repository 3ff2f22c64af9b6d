//! The run of a script.
//!
//! Of a script that is too long each line is answered that ends within its first 16,777,216 bytes, and only then the
//! run ends. So the room is counted down over the pulls, and of the last one no more is taken than fits.

ghost use Rattle.std.specs.Prelude.{◌≡◌, ◌≢◌, ◌+◌, ◌<◌, ◌≤◌, [], ℕ, IsTrue, false, length, vec_len};
ghost use Rattle.chart_ports.specs.Count.{Rose, RoseBy};
ghost use Rattle.chart_ports.specs.Moments.{MayBeLeft};
ghost use Rattle.panel_scenes.specs.Scene.{new_scenes};
ghost use Rattle.session_core.specs.Session.{model_of, scenes_of};
ghost use Rattle.ecdis_cli.specs.Devices.{KeepsDevices, LeavesBetween, panels_in};
ghost use Rattle.ecdis_cli.specs.Run.{Ran, outside_of};
ghost use Rattle.ecdis_cli.specs.Status.{is_early};
ghost use Rattle.ecdis_cli.specs.Standing.{IsReadyFor, Stands};

use crate::run::devices::Devices;
use crate::run::reader::Reader;
use crate::run::status::Status;
use chart_ports::{Desk, Failed, Shelf, Source};
use chart_store::kept_stores_are_read;
use session_core::{Session, turns_follow_their_commands};
use std::alloc::Global;
use std::sync::ledger::Ledger;

/// The most bytes of a script.
const SCRIPT_LIMIT: usize = 16_777_216;

/// Answers the script's lines, through a buffer for its bytes. Each pull that isn't the last leaves less room for the
/// next.
pub fn run_script<S: Source, L: Shelf, D: Desk, C: Ledger>(
    alloc: Global,
    buffer: &mut [u8],
    session: Session,
    script: &mut S,
    devices: &mut Devices<L, D, C>,
) -> Status
    requires room { 0 < length buffer.old }
    requires ready { IsReadyFor D.tells D.contents D.may_leave devices.old 1 session }
    requires fresh { scenes_of session ≡ new_scenes (vec_len devices.old.panels.now) }

    // The replies to the script's lines are said, the lines that were come to are counted, panels go along with them,
    // and a crash leaves what the replies acknowledge, where the files stand for what is held.
    ensures ran { IsTrue S.tells → IsTrue D.tells →
        Ran L.tells (L.files devices.old.shelf.now) (model_of session) result
        (Stands D.contents devices.old session)
        (LeavesBetween D.clock D.might devices.old devices.new) (λ images so_far. ⊥)
        (MayBeLeft (D.may_leave devices.new.desk.now))
        (outside_of (S.left script.old) (D.said devices.old.desk.now) (L.faults devices.old.shelf.now)
        devices.old.steps.now (panels_in Panel-box devices.old))
        (outside_of (S.left script.new) (D.said devices.new.desk.now) (L.faults devices.new.shelf.now)
        devices.new.steps.now (panels_in Panel-box devices.new)) }

    // A run that is done has read the whole script, which is no longer than may be.
    ensures done { result ≡ Status.Done → IsTrue (S.is_at_end script.new) }
    ensures read { IsTrue S.tells → result ≡ Status.Done → S.left script.new ≡ [] }
    ensures short { IsTrue S.tells → result ≡ Status.Done → length (S.left script.old) ≤ SCRIPT_LIMIT }

    // Each other end has its cause, and none is of the words, the tables or the files of the store.
    ensures begun { is_early result ≡ false }
    ensures opened { (bank at : ℕ) → result ≢ Status.Foreign bank at }
    ensures script_failed { result ≡ Status.ScriptFault → Rose (S.faults script.old) (S.faults script.new) }
    ensures script_long { result ≡ Status.ScriptLong →
        RoseBy (SCRIPT_LIMIT + 1) (S.given script.old) (S.given script.new) }
    ensures script_over { IsTrue S.tells → result ≡ Status.ScriptLong → SCRIPT_LIMIT < length (S.left script.old) }
    ensures desk_failed { result ≡ Status.DeskFault →
        Rose (D.faults devices.old.desk.now) (D.faults devices.new.desk.now) }

    // No count of faults falls, and files stay.
    ensures script_later { S.faults script.old ≤ S.faults script.new }
    ensures keeps { KeepsDevices L.tells L.files L.faults D.faults devices.old devices.new }
{
    kept_stores_are_read::<D>();
    turns_follow_their_commands();
    let mut reader = Reader::new(alloc, session);
    let mut room = SCRIPT_LIMIT;
    'pulls: loop {
        let count = match script.pull(buffer) {
            Ok(count) => count,
            Err(Failed) => return Status::ScriptFault,
        };
        if count == 0 {
            if let Err(stop) = reader.finish(alloc, devices) {
                return Status::after(stop);
            }
            return Status::Done;
        }
        if let Err(stop) = reader.take_all(alloc, &buffer[..count.min(room)], devices) {
            return Status::after(stop);
        }
        if count > room {
            return Status::ScriptLong;
        }
        room -= count;
    }
}
