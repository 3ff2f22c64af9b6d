//! The line `load`.
//!
//! All that can be refused before the store is asked is the fetch: the file is absent or has more than 8,388,608 bytes,
//! or the shelf failed. What the bytes say is the store's to judge.

ghost use Rattle.std.specs.Prelude.{◌≡◌, ◌≢◌, ◌≤◌, Err, IsTrue};
ghost use Rattle.session_core.specs.declared.fault.EventFault.TheVariants.{DeskFault};
ghost use Rattle.session_core.specs.Answers.{Gives};
ghost use Rattle.session_core.specs.Fetch.{AreFetched, Fetches, KeepsShelf};
ghost use Rattle.chart_store.specs.Loaded.{FILE_LIMIT as LIMIT};
ghost use Rattle.session_core.specs.Order.{load_order};

use crate::changes::order::{Order, Success};
use crate::fault::EventFault;
use crate::fetch::fetch;
use chart_model::Command;
use chart_ports::Shelf;
use chart_store::FILE_LIMIT;
use script_reader::Word;
use std::alloc::Global;

/// What the line `load` orders: the file of this name is to be taken over.
pub fn load_order<L: Shelf>(alloc: Global, name: Word, shelf: &mut L) -> Result<Order, EventFault>
    ensures found { (fetches : Fetches)
        × AreFetched L.tells (L.files shelf.old) (L.faults shelf.old) (L.faults shelf.new) fetches
        × Gives result (load_order name (fetches LIMIT name)) }
    ensures desk { result ≢ Err DeskFault }
    ensures keeps { KeepsShelf L.tells L.files L.faults shelf.old shelf.new }
{
    let file = fetch(alloc, name, FILE_LIMIT, shelf)?;
    Ok(Order {
        command: Command::Load(file),
        success: Success::Load,
    })
}
