//! What holds of files of colours and of what they say.
//!
//! The contracts cite functions; here they are tied to the grammar that a reader checks them by.

ghost use Rattle.std.specs.Prelude.{◌≡◌, ◌↔◌, List, ℕ, Some, IsTrue};
ghost use Rattle.colour_table.specs.Swatch.{Spells, IsBad, swatch_of};
ghost use Rattle.colour_table.specs.Reading.{is_bad};
ghost use Rattle.colour_table.specs.declared.swatch.Swatch.{Swatch as SwatchValue};

use text_lines::parts_are_joined;
use text_scan::numbers_are_spelled;

/// The functions that definitions cite give the colour under its token that a line spells, and a line spells one at
/// most; a bad line says something and spells none.
pub fn colours_are_read()
    ensures swatch { (line : List ℕ) (swatch : SwatchValue) → (swatch_of line ≡ Some swatch) ↔ Spells line swatch }
    ensures one { (line : List ℕ) (a b : SwatchValue) → Spells line a → Spells line b → a ≡ b }
    ensures bad { (line : List ℕ) → IsTrue (is_bad line) ↔ IsBad line }
{
    parts_are_joined();
    numbers_are_spelled();
}
