//! What holds of all symbols.
//!
//! They are data, so the data itself is looked at.

ghost use Rattle.std.specs.Prelude.{List, IsTrue};
ghost use Rattle.std.specs.List.{list_all};
ghost use Rattle.colour_table.specs.declared.swatch.Swatch.{Swatch as SwatchValue};
ghost use Rattle.chart_symbols.specs.Table.{named_by, names_of, paths_of, are_distinct, is_relative};
ghost use Rattle.chart_symbols.specs.Table.{AreCalled, steps, stand_at};

/// No two symbols have one name. Each name by which procedures call a symbol is there, in the colour under its token,
/// and digits stand where the step of their place leads. All paths are in relative commands, of bytes that a document
/// needn't escape.
pub fn symbols_are_sound()
    ensures names { (colours : List SwatchValue) → IsTrue (are_distinct (names_of (named_by colours))) }
    ensures called { (colours : List SwatchValue) → AreCalled colours }
    ensures places { (colours : List SwatchValue) → IsTrue (list_all (stand_at colours) steps) }
    ensures paths { (colours : List SwatchValue) →
        IsTrue (list_all is_relative (paths_of (named_by colours))) }
{}
