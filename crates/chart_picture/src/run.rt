//! All that the program does.
//!
//! It is generic in the devices. What its contract says of what is said, it says over devices that tell what they hold,
//! and the same code runs over the real ones, which tell nothing. The words come first, then the three files by which
//! cells are drawn, then the cell files and the route; the picture is said when it is whole.

mod cells;
mod drawings;
pub mod end;
mod extent;
mod fault;
mod files;
mod grids;
mod line;
mod material;
mod picture;
mod tables;
mod voyage;

ghost use Rattle.std.specs.Prelude.{◌≡◌, ◌≢◌, ◌≤◌, ◌++◌, ◌⊎◌, List, ℕ, true, map, string_bytes, IsTrue};
ghost use Rattle.std.specs.Prelude.{Some, None, Ok, Err, IfErr};
ghost use Rattle.chart_ports.specs.Count.{IsSteady, Rose};
ghost use Rattle.chart_ports.specs.Disk.{SameFiles};
ghost use Rattle.chart_ports.specs.Said.{SaysFront};
ghost use Rattle.picture_words.specs.Reading.{PictureValue, are_refused, value_of, words_of};
ghost use Rattle.chart_picture.specs.End.{is_early, is_refusal};
ghost use Rattle.chart_picture.specs.Material.{material_in};
ghost use Rattle.chart_picture.specs.Run.{IsAnswer, IsAnswered, IsPictured};
ghost use Rattle.chart_picture.specs.declared.run.end.End.{End as EndValue};
ghost use Rattle.chart_picture.specs.declared.run.end.End.TheVariants.{NoMemory};
ghost use Rattle.chart_picture.specs.declared.run.material.Material.{Material as MaterialValue};

use crate::run::end::End;
use crate::run::material::gather;
use crate::run::picture::draw;
use chart_model::Octets;
use chart_ports::{Desk, Failed, Shelf, Steps};
use picture_words::{PictureWords, WordsEnd, read_picture_words};
use std::alloc::Global;
use std::sync::ledger::Ledger;

/// The document that words ask for which are read.
fn picture_of<L: Shelf, C: Ledger>(
    alloc: Global,
    words: &PictureWords,
    shelf: &mut L,
    steps: &mut Steps<C>,
) -> Result<Octets, End>
    requires { 1 ≤ words.now.width }
    ensures { IsPictured L.tells L.files L.faults shelf.old shelf.new (value_of words.now) result }
{
    let material = gather(alloc, words, shelf, steps)?;
    let document = draw(alloc, words, &material, steps)?;
    Ok(document)
}

/// A text as bytes.
fn text_of(alloc: Global, text: &str) -> Result<Octets, End>
    ensures { IfErr result (λ end. end ≡ NoMemory) }
{
    Ok(Octets::from_slice(alloc, text.as_bytes())?)
}

/// What the words ask for: a picture, or the text of the help or the version.
fn answer<L: Shelf, C: Ledger>(
    alloc: Global,
    words: &[String],
    shelf: &mut L,
    steps: &mut Steps<C>,
) -> Result<Octets, End>
    ensures answered { IsAnswered L.tells L.files L.faults shelf.old shelf.new (map string_bytes words.now)
        (words_of (map string_bytes words.now)) result }
    ensures uncounted { words_of (map string_bytes words.now) ≡ None → steps.new ≡ steps.old }
{
    match read_picture_words(alloc, words) {
        Ok(words) => picture_of(alloc, &words, shelf, steps),
        Err(WordsEnd::Asked(text)) => text_of(alloc, text.as_str()),
        Err(WordsEnd::Refused) => Err(End::Words),
        Err(WordsEnd::NoMemory) => Err(End::NoMemory),
    }
}

/// Runs the program: it reads the words, loads the cell files in order, and says the picture of the charts that they
/// leave.
///
/// `words` are those of the command line, the program's name first. The files that they name are those of the shelf.
/// The desk's own files are never asked for: there is no store.
pub fn run_picture<L: Shelf, D: Desk, C: Ledger>(
    alloc: Global,
    words: &[String],
    shelf: &mut L,
    desk: &mut D,
    steps: &mut Steps<C>,
) -> End
    // What is said is the document that the words ask for, of what lies on the shelf, or the text of the help or the
    // version: the whole of it where the run is done, and a front of it where standard output failed. Else nothing is.
    ensures done { IsTrue L.tells → IsTrue D.tells → result ≡ End.Done → (bytes : List ℕ)
        × IsAnswer (L.files shelf.old) (map string_bytes words.now) bytes
        × (D.said desk.new ≡ D.said desk.old ++ bytes) }
    ensures output { IsTrue L.tells → IsTrue D.tells → result ≡ End.OutputFault → (bytes : List ℕ)
        × IsAnswer (L.files shelf.old) (map string_bytes words.now) bytes
        × SaysFront (D.said desk.old) bytes (D.said desk.new) }
    ensures silent { result ≢ End.Done → result ≢ End.OutputFault → desk.new ≡ desk.old }
    ensures no_store { IsTrue D.tells → SameFiles (D.contents desk.old) (D.contents desk.new) }

    // Words that don't fit end the run, and no others do. Then, and where they ask for a text, no file is fetched.
    ensures words { result ≡ End.Words → are_refused (map string_bytes words.now) ≡ true }
    ensures wordless { words_of (map string_bytes words.now) ≡ None → IsTrue (is_early result) }
    ensures unread { words_of (map string_bytes words.now) ≡ None →
        (shelf.new ≡ shelf.old) × (steps.new ≡ steps.old) }

    // The first file that isn't there, is too long, has a fault or is refused ends it, and no other does.
    ensures refused { IsTrue L.tells → IsTrue (is_refusal result) → (said : PictureValue)
        × (words_of (map string_bytes words.now) ≡ Some said) × (material_in (L.files shelf.old) said ≡ Err result) }
    ensures refuses { (said : PictureValue) (end : EndValue) → IsTrue L.tells →
        words_of (map string_bytes words.now) ≡ Some said → material_in (L.files shelf.old) said ≡ Err end →
        (result ≡ end) ⊎ ((result ≡ End.ShelfFault) ⊎ (result ≡ End.NoMemory)) }

    // Each other end has its cause. Want of memory alone needs none.
    ensures output_failed { result ≡ End.OutputFault → Rose (D.faults desk.old) (D.faults desk.new) }
    ensures shelf_failed { result ≡ End.ShelfFault → Rose (L.faults shelf.old) (L.faults shelf.new) }
    ensures complete { (said : PictureValue) (material : MaterialValue) → IsTrue L.tells →
        words_of (map string_bytes words.now) ≡ Some said → material_in (L.files shelf.old) said ≡ Ok material →
        IsSteady (D.faults desk.old) (D.faults desk.new) →
        (result ≡ End.Done) ⊎ ((result ≡ End.ShelfFault) ⊎ (result ≡ End.NoMemory)) }

    // No count of faults falls, and the shelf's files stay.
    ensures shelf_later { L.faults shelf.old ≤ L.faults shelf.new }
    ensures desk_later { D.faults desk.old ≤ D.faults desk.new }
    ensures same { IsTrue L.tells → L.files shelf.new ≡ L.files shelf.old }
{
    let said = match answer(alloc, words, shelf, steps) {
        Ok(bytes) => bytes,
        Err(end) => return end,
    };
    match desk.say(said.as_slice()) {
        Ok(()) => End::Done,
        Err(Failed) => End::OutputFault,
    }
}
