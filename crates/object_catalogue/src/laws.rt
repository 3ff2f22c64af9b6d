//! What holds of catalogues and of what they say.
//!
//! The contracts cite functions; here they are tied to the grammar that a reader checks them by.

ghost use Rattle.std.specs.Prelude.{◌≡◌, ◌↔◌, List, ℕ, Some, true, IsTrue};
ghost use Rattle.object_catalogue.specs.Entry.{Spells, IsBad, entry_of};
ghost use Rattle.object_catalogue.specs.Reading.{is_bad};
ghost use Rattle.object_catalogue.specs.declared.entry.Entry.{Entry as EntryValue};

use text_lines::parts_are_joined;
use text_scan::numbers_are_spelled;

/// The functions that definitions cite give the entry that a line spells, and a line spells one entry at most; a bad
/// line says something and spells none.
pub fn catalogues_are_read()
    ensures entry { (line : List ℕ) (entry : EntryValue) → (entry_of line ≡ Some entry) ↔ Spells line entry }
    ensures one { (line : List ℕ) (a b : EntryValue) → Spells line a → Spells line b → a ≡ b }
    ensures bad { (line : List ℕ) → IsTrue (is_bad line) ↔ IsBad line }
{
    parts_are_joined();
    numbers_are_spelled();
}
