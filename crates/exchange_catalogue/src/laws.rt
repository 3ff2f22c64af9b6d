//! What holds of cell names and of load orders, apart from how they are found.
//!
//! Definitions cite a function where contracts need one answer. That the function gives what the rule says, and that
//! nothing else fits the rule, is said here once.

ghost use Rattle.std.specs.Prelude.{◌≡◌, ◌↔◌, List, ℕ, Some};
ghost use Rattle.exchange_catalogue.specs.CellNames.{CellNameValue, SpellsCellName, cell_name_of};
ghost use Rattle.exchange_catalogue.specs.Orders.{IsLoadOrder, load_order_of};
ghost use Rattle.exchange_catalogue.specs.declared.entry.Entry.{Entry as ListedEntry};

use text_scan::numbers_are_spelled;

/// The function that definitions cite gives the cell file whose name the bytes spell, and each.
pub fn cell_names_are_spelled()
    ensures { (name : List ℕ) (cell : CellNameValue) → (cell_name_of name ≡ Some cell) ↔ SpellsCellName name cell }
{
    numbers_are_spelled();
}

/// The function that definitions cite gives the load order of entries, which is one.
pub fn load_orders_are_one()
    ensures there { (entries : List ListedEntry) → IsLoadOrder entries (load_order_of entries) }
    ensures one { (entries : List ListedEntry) (order : List (List ℕ)) → IsLoadOrder entries order
        → order ≡ load_order_of entries }
{}
