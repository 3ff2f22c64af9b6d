//! What holds of blocks and drawings.
//!
//! A drawing is defined by its blocks and their order. That exactly one list is so is what makes that a definition. The
//! blocks of a cell are defined by a walk over its features; that they can be looked up instead is said here.

ghost use Rattle.std.specs.Prelude.{◌≡◌, ◌↔◌, List, Some};
ghost use Rattle.chart_model.specs.Cell.{CellValue, IsCell};
ghost use Rattle.chart_model.specs.declared.drawing.Block.{Block};
ghost use Rattle.chart_model.specs.declared.name.Name.{Name};
ghost use Rattle.chart_model.specs.declared.settings.Settings.{Settings};
ghost use Rattle.lookup_table.specs.declared.line.TableLine.{TableLine as LineValue};
ghost use Rattle.draw_list.specs.declared.drawing.Drawn.{Drawn as DrawnValue};
ghost use Rattle.draw_list.specs.Block.{block_at};
ghost use Rattle.draw_list.specs.Blocks.{named_blocks_in, HasBlock};
ghost use Rattle.draw_list.specs.Drawing.{IsDrawing, drawing_of};

/// Among the blocks of a cell a block stands under a name exactly where it is what is drawn of the feature of that name.
pub fn blocks_are_by_name()
    ensures { (cell : CellValue) (table : List LineValue) (settings : Settings) (name : Name) (block : Block) →
        HasBlock (named_blocks_in cell table settings) name block ↔ (block_at cell table settings name ≡ Some block) }
{}

/// A cell has one drawing by a table and settings: there is one, that of the definition `drawing_of`, and no other.
pub fn drawings_are_one()
    ensures there { (cell : CellValue) (table : List LineValue) (settings : Settings) →
        IsDrawing cell table settings (drawing_of cell table settings) }
    ensures one { (cell : CellValue) (table : List LineValue) (settings : Settings) (a b : List DrawnValue) →
        IsCell cell → IsDrawing cell table settings a → IsDrawing cell table settings b → a ≡ b }
{}
