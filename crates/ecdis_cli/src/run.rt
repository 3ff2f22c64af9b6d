//! All that the program does.
//!
//! It is generic in the devices. What its contract says of every byte that is said, and of what a crash leaves, is said
//! over devices that tell what they hold, and the same code runs over the real ones, which tell nothing. The words come
//! first, then the catalogue and the table, then the store: a run that ends at the words or at either file has read
//! nothing of the script, written nothing, said nothing and painted nothing.

mod answer;
mod devices;
mod file_stop;
mod line;
mod opened;
mod reader;
mod rounds;
pub mod status;
mod stop;
mod tables;
pub mod tables_fault;

ghost use Rattle.std.specs.Prelude.{◌≡◌, ◌+◌, ◌<◌, ◌≤◌, ◌⊎◌, [], List, ℕ};
ghost use Rattle.std.specs.Prelude.{IsTrue, length, vec_len, map, string_bytes, Some, None, Ok, Err};
ghost use Rattle.chart_ports.specs.Count.{IsSteady, Rose, RoseBy};
ghost use Rattle.chart_ports.specs.Disk.{SameFiles};
ghost use Rattle.chart_ports.specs.Moments.{LeavesOnly, MayBeLeft, images_of};
ghost use Rattle.chart_store.specs.Images.{Reading, StandFor, read_of};
ghost use Rattle.chart_store.specs.Store.{LeavesBefore, LeavesReading};
ghost use Rattle.command_words.specs.Reading.{WordsValue, words_of};
ghost use Rattle.lookup_table.specs.declared.line.TableLine.{TableLine as LineValue};
ghost use Rattle.session_core.specs.Model.{Portrayal};
ghost use Rattle.session_core.specs.Outside.{FromOutside};
ghost use Rattle.ecdis_cli.specs.Counted.{most_at_opening, most_in_bank};
ghost use Rattle.ecdis_cli.specs.Days.{AreFetchedAlike, GoAlike, without_day};
ghost use Rattle.ecdis_cli.specs.Limits.{SCRIPT_LIMIT};
ghost use Rattle.ecdis_cli.specs.Panels.{values_of};
ghost use Rattle.ecdis_cli.specs.Portrayal.{IsPortrayal};
ghost use Rattle.ecdis_cli.specs.Run.{Ran, model_at, outside_of};
ghost use Rattle.ecdis_cli.specs.Status.{is_early};
ghost use Rattle.ecdis_cli.specs.Tables.{TablesEnd, table_in};
ghost use Rattle.ecdis_cli.specs.declared.run.tables_fault.TablesFault.{TablesFault as FaultValue};

use crate::run::devices::Devices;
use crate::run::opened::run_opened;
use crate::run::status::Status;
use crate::run::tables::fetch_tables;
use chart_ports::{Desk, Shelf, Source, Steps};
use command_words::{WordsFault, read_words};
use panel_port::Panel;
use session_core::{days_leave_charts, turns_follow_their_commands};
use std::alloc::Global;
use std::sync::ledger::Ledger;

/// Runs the program: it reads the catalogue and the table that the words name, opens the store on the desk, and answers
/// the script line by line. Each reply is said before the next line is run.
///
/// `words` are those of the command line, the program's name first. The files that words and lines name are those of
/// the shelf. `panels` are those that lines name by their numbers, from 1: one that a line closes is taken out. `steps`
/// counts the data records that are come to, the features of the charts that are held at the start, those that are
/// drawn of a day, and those whose records differ after a command.
pub fn run_ecdis<S: Source, L: Shelf, D: Desk, C: Ledger>(
    alloc: Global,
    words: &[String],
    script: &mut S,
    shelf: &mut L,
    desk: &mut D,
    panels: &mut Vec<Box<dyn Panel>>,
    steps: &mut Steps<C>,
) -> Status
    // Words that don't fit end the run before anything is read, written, said, painted or counted, and no others do.
    ensures words { result ≡ Status.Words → words_of (map string_bytes words.now) ≡ None }
    ensures wordless { words_of (map string_bytes words.now) ≡ None →
        (result ≡ Status.Words) ⊎ (result ≡ Status.NoMemory) }
    ensures untouched { words_of (map string_bytes words.now) ≡ None →
        (script.new ≡ script.old) × (shelf.new ≡ shelf.old) × (desk.new ≡ desk.old) × (panels.new ≡ panels.old)
        × (steps.new ≡ steps.old) }

    // A catalogue or a table that isn't there, is too long or has a fault ends it too, and no other does: nothing of
    // the script is read and nothing is written, said, painted or counted, however the run ends then, and wherever the
    // words or a fetch of these files end it.
    ensures tables { (which : ℕ) (fault : FaultValue) → IsTrue L.tells → result ≡ Status.Tables which fault →
        (said : WordsValue) × (words_of (map string_bytes words.now) ≡ Some said)
        × (table_in (L.files shelf.old) said ≡ Err (record { which = which; fault = fault })) }
    ensures refused_tables { (said : WordsValue) (end : TablesEnd) → IsTrue L.tells →
        words_of (map string_bytes words.now) ≡ Some said → table_in (L.files shelf.old) said ≡ Err end →
        (result ≡ Status.Tables end.which end.fault) ⊎ ((result ≡ Status.ShelfFault) ⊎ (result ≡ Status.NoMemory)) }
    ensures untabled { IsTrue (is_early result) →
        (script.new ≡ script.old) × (desk.new ≡ desk.old) × (panels.new ≡ panels.old) × (steps.new ≡ steps.old) }
    ensures tableless { (said : WordsValue) (end : TablesEnd) → IsTrue L.tells →
        words_of (map string_bytes words.now) ≡ Some said → table_in (L.files shelf.old) said ≡ Err end →
        (script.new ≡ script.old) × (desk.new ≡ desk.old) × (panels.new ≡ panels.old) × (steps.new ≡ steps.old) }

    // From files that read as what is held, the output is the replies to the script's lines, all of them where the run
    // is done and else a front. Where the files stand for what is held, at every moment a crash leaves files that stand
    // for what the first accepted commands leave: as many as have a reply that was begun, or one more; or the files as
    // one might have left them at the start. At the end of a run that is done it leaves what stands for what all of
    // them leave, and what is read of that has the bytes in use that the replies go by, so a save that was replied to
    // was made. Cells are drawn by the table that was read and by the settings of the words; where these name a day,
    // each drawing and each refresh is of the charts on that day. The count of steps rises by no more than the data
    // records that the commands in the current bank may come to, the features of the charts that are held at the start,
    // and, of each line that is come to, the data records that it may come to, the features that it draws of a day, and
    // the names whose records differ after it.
    //
    // Replies tell the numbers of what panels show, and each panel that is not closed has counted a fault for each reply
    // that says it failed. Unless the desk fails or memory runs out, such a panel shows at the end what is known of it,
    // so once its refresh is finished what the charts were when that began; and one that counted no fault was called as
    // often as replies tell.
    ensures ran { IsTrue S.tells → IsTrue D.tells → (opening : Reading) →
        read_of (images_of (D.contents desk.old)) ≡ Ok opening →
        (portrayal : Portrayal)
        × IsPortrayal L.tells (L.files shelf.old) (words_of (map string_bytes words.now)) portrayal
        × Ran L.tells (L.files shelf.old) (model_at portrayal (vec_len panels.old) opening) result
        (StandFor (images_of (D.contents desk.old)) opening.state)
        (λ P. LeavesOnly D.clock D.might desk.old desk.new P) (LeavesBefore (D.may_leave desk.old) (D.said desk.old))
        (MayBeLeft (D.may_leave desk.new))
        (outside_of (S.left script.old) (D.said desk.old) (L.faults shelf.old)
        (steps.old + most_at_opening (D.contents desk.old) opening) (values_of Panel-box panels.old.items))
        (outside_of (S.left script.new) (D.said desk.new) (L.faults shelf.new) steps.new
        (values_of Panel-box panels.new.items)) }

    // The day changes what is drawn, and nothing else. Line by line the same command is accepted as without the option,
    // the same is held, and the reply is the same, but to `draw` and to lines about panels: so live files, charts and
    // reports are those of the same script without it, and so is what the files stand for and read as. The shelf has to
    // answer the same; panels need not.
    ensures days { (portrayal : Portrayal) (count : ℕ) (opening : Reading) (script : List ℕ)
        (answers others : List FromOutside) → AreFetchedAlike answers others →
        GoAlike script (model_at portrayal count opening) (model_at (without_day portrayal) count opening)
        answers others }

    // A run that is done has read the whole script, which is no longer than may be.
    ensures done { result ≡ Status.Done → IsTrue (S.is_at_end script.new) }
    ensures read { IsTrue S.tells → result ≡ Status.Done → S.left script.new ≡ [] }
    ensures short { IsTrue S.tells → result ≡ Status.Done → length (S.left script.old) ≤ SCRIPT_LIMIT }

    // Where the files are no store's, nothing is read of the script, nothing said or painted and no more counted than
    // the bank's data records, however the run ends, and at every moment a crash leaves files that say the same, or as
    // one might have left them at the start; it ends for them unless the disk fails or memory runs out, and then they
    // are left as they were.
    ensures foreign { (bank at : ℕ) → IsTrue D.tells → result ≡ Status.Foreign bank at →
        read_of (images_of (D.contents desk.old)) ≡ Err (record { bank = bank; at = at }) }
    ensures refused_files { (bank at : ℕ) → IsTrue D.tells →
        read_of (images_of (D.contents desk.old)) ≡ Err (record { bank = bank; at = at }) →
        (result ≡ Status.Foreign bank at) ⊎
        ((result ≡ Status.DeskFault) ⊎ ((result ≡ Status.NoMemory) ⊎ IsTrue (is_early result))) }
    ensures unread { (bank at : ℕ) → result ≡ Status.Foreign bank at →
        (script.new ≡ script.old) × (panels.new ≡ panels.old) }
    ensures unopened { (bank at : ℕ) → IsTrue D.tells →
        read_of (images_of (D.contents desk.old)) ≡ Err (record { bank = bank; at = at }) →
        (script.new ≡ script.old) × (D.said desk.new ≡ D.said desk.old) × (panels.new ≡ panels.old)
        × (steps.new ≤ steps.old + most_in_bank (D.contents desk.old)) }
    ensures refused_moments { (bank at : ℕ) → IsTrue D.tells →
        read_of (images_of (D.contents desk.old)) ≡ Err (record { bank = bank; at = at }) →
        LeavesOnly D.clock D.might desk.old desk.new
        (LeavesReading (D.contents desk.old) (D.may_leave desk.old) (D.said desk.old)) }
    ensures left { (bank at : ℕ) → IsTrue D.tells → result ≡ Status.Foreign bank at →
        SameFiles (D.contents desk.old) (D.contents desk.new) }

    // Each other end has its cause. Want of memory alone needs none.
    ensures script_failed { result ≡ Status.ScriptFault → Rose (S.faults script.old) (S.faults script.new) }
    ensures script_long { result ≡ Status.ScriptLong →
        RoseBy (SCRIPT_LIMIT + 1) (S.given script.old) (S.given script.new) }
    ensures script_over { IsTrue S.tells → result ≡ Status.ScriptLong → SCRIPT_LIMIT < length (S.left script.old) }
    ensures desk_failed { result ≡ Status.DeskFault → Rose (D.faults desk.old) (D.faults desk.new) }
    ensures shelf_failed { result ≡ Status.ShelfFault → Rose (L.faults shelf.old) (L.faults shelf.new) }

    // No count of faults falls, and the shelf's files stay.
    ensures script_later { S.faults script.old ≤ S.faults script.new }
    ensures shelf_later { L.faults shelf.old ≤ L.faults shelf.new }
    ensures desk_later { D.faults desk.old ≤ D.faults desk.new }
    ensures same { IsTrue L.tells → L.files shelf.new ≡ L.files shelf.old }

    // Where no other end has its cause, the run is done, unless memory runs out or a fetch of the catalogue or the
    // table fails.
    ensures complete { (said : WordsValue) (lines : List LineValue) (opening : Reading) →
        IsTrue S.tells → IsTrue L.tells → IsTrue D.tells → words_of (map string_bytes words.now) ≡ Some said →
        table_in (L.files shelf.old) said ≡ Ok lines → read_of (images_of (D.contents desk.old)) ≡ Ok opening →
        length (S.left script.old) ≤ SCRIPT_LIMIT →
        IsSteady (S.faults script.old) (S.faults script.new) → IsSteady (D.faults desk.old) (D.faults desk.new) →
        (result ≡ Status.Done) ⊎ ((result ≡ Status.ShelfFault) ⊎ (result ≡ Status.NoMemory)) }
{
    turns_follow_their_commands();
    days_leave_charts();
    let words = match read_words(alloc, words) {
        Ok(words) => words,
        Err(WordsFault::Refused) => return Status::Words,
        Err(WordsFault::NoMemory) => return Status::NoMemory,
    };
    let table = match fetch_tables(alloc, &words, shelf) {
        Ok(table) => table,
        Err(status) => return status,
    };
    let mut devices = Devices {
        shelf,
        desk,
        panels,
        steps,
    };
    run_opened(
        alloc,
        table,
        words.settings,
        words.day,
        script,
        &mut devices,
    )
}
