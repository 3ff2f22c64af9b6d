//! What holds of tables and of what they say.
//!
//! The contracts cite functions of a text. The grammar that a reader checks them by is a relation; the two are tied
//! together here.

ghost use Rattle.std.specs.Prelude.{◌≡◌, ◌↔◌, List, ℕ, Some, IsTrue};
ghost use Rattle.lookup_table.specs.declared.written.WrittenLine.{WrittenLine as LineValue};
ghost use Rattle.lookup_table.specs.Written.{Spells};
ghost use Rattle.lookup_table.specs.Reading.{written_of};

use text_lines::parts_are_joined;

/// The function that definitions cite gives the line of a table that a text spells, and a text spells one at most.
pub fn tables_are_read()
    ensures line { (text : List ℕ) (line : LineValue) → (written_of text ≡ Some line) ↔ Spells text line }
    ensures one { (text : List ℕ) (a b : LineValue) → Spells text a → Spells text b → a ≡ b }
{
    parts_are_joined();
}
