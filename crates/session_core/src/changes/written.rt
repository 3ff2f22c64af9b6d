//! The lines `make` and `reissue`: files that are written here.
//!
//! Such a file is loaded as one that was fetched, and the journal keeps its bytes. So a store is opened without writing
//! a cell, and its charts stay the same should a later program write other bytes.

ghost use Rattle.std.specs.Prelude.{◌≡◌, ◌≢◌, ◌≤◌, length, Err, IfOk, IfSome};
ghost use Rattle.std.specs.FinMap as map;
ghost use Rattle.std.specs.Int.{IsInRange};
ghost use Rattle.cell_bytes.specs.Generator.{made_cell};
ghost use Rattle.cell_bytes.specs.Written.{data_records};
ghost use Rattle.chart_closure.specs.Closed.{IsClosed};
ghost use Rattle.chart_model.specs.State.{IsState};
ghost use Rattle.session_core.specs.declared.fault.EventFault.TheVariants.{DeskFault, NoMemory};
ghost use Rattle.session_core.specs.Answers.{Gives};
ghost use Rattle.session_core.specs.Held.{chart_of};
ghost use Rattle.session_core.specs.Model.{Model};
ghost use Rattle.session_core.specs.Reissue.{ReadsBack, ReissueKeepsChart};
ghost use Rattle.session_core.specs.Order.{make_order, reissue_order};
ghost use Rattle.session_core.specs.Written.{base_of, made_file, reissue_file, update_of};

use crate::changes::order::{Order, Success};
use crate::fault::EventFault;
use crate::held::chart_of;
use crate::refusal::LineRefusal;
use cell_bytes::modified_count;
use cell_writer::{make_cell, make_update, write_cell};
use chart_model::{Cell, Command, HoldingMap, Key, Octets};
use chart_store::{Refusal as StoreRefusal, reissues_keep_the_chart};
use std::alloc::{AllocError, Global};

/// A file that was made.
#[derive(Debug, Drop)]
pub struct MadeFile {
    /// Its bytes.
    pub bytes: Octets,
    /// How many data records it has.
    pub records: u64,
}

/// How many data records the base file of a cell has: general information, parameters, and one of each vector and of
/// each feature.
#[tactic(auto, using(crate::proofs::Writing::records_written))]
fn records_of(cell: &Cell) -> u64
    requires vectors { map.len cell.now.vectors ≤ 40000 }
    requires features { map.len cell.now.features ≤ 20000 }
    ensures { result ≡ length (data_records cell.now) }
{
    2 + cell.vectors.len() as u64 + cell.features.len() as u64
}

/// The base file of the cell for trials with so many areas.
fn base_of(alloc: Global, areas: u32) -> Result<MadeFile, EventFault>
    requires { IsInRange 1 20000 areas }
    ensures given { Gives result (base_of (made_cell areas)) }
    ensures desk { result ≢ Err DeskFault }
{
    let cell = make_cell(alloc, areas)?;
    let bytes = write_cell(alloc, &cell)?;
    Ok(MadeFile {
        bytes,
        records: records_of(&cell),
    })
}

/// An update of that cell.
fn update_of(alloc: Global, areas: u32, update: u32) -> Result<MadeFile, AllocError>
    requires areas { IsInRange 1 20000 areas }
    requires update { IsInRange 1 999 update }
    ensures { IfOk result (λ file. file ≡ update_of areas update) }
{
    let bytes = make_update(alloc, areas, update)?;
    Ok(MadeFile {
        bytes,
        records: 1 + modified_count(update, areas) as u64,
    })
}

/// The base file of the cell for trials with so many areas where the number of the update is 0, or else that update.
fn made_file(alloc: Global, areas: u32, update: u32) -> Result<MadeFile, EventFault>
    requires areas { IsInRange 1 20000 areas }
    requires update { update ≤ 999 }
    ensures given { Gives result (made_file areas update) }
    ensures desk { result ≢ Err DeskFault }
{
    if update == 0 {
        base_of(alloc, areas)
    } else {
        Ok(update_of(alloc, areas, update)?)
    }
}

/// What the line `make` orders.
pub fn make_order(alloc: Global, areas: u32, update: u32) -> Result<Order, EventFault>
    requires areas { IsInRange 1 20000 areas }
    requires update { update ≤ 999 }
    ensures given { Gives result (make_order areas update) }
    ensures desk { result ≢ Err DeskFault }
{
    let file = made_file(alloc, areas, update)?;
    Ok(Order {
        command: Command::Load(file.bytes),
        success: Success::Make(file.records),
    })
}

/// The base file of the chart of the cell of this key.
#[tactic(auto, unfolding(crate::specs::Written::reissue_file))]
fn reissue(alloc: Global, key: Key, cells: &HoldingMap) -> Result<Octets, EventFault>
    requires closed { IfSome (chart_of cells.now key) IsClosed }
    ensures given { Gives result (reissue_file cells.now key) }
    ensures reads_back { result ≢ Err NoMemory → ReadsBack cells.now key }
    ensures desk { result ≢ Err DeskFault }
{
    let Some(chart) = chart_of(cells, key) else {
        return Err(EventFault::Refused(LineRefusal::Store(StoreRefusal::NoCell(key))));
    };
    Ok(write_cell(alloc, chart)?)
}

/// What the line `reissue` orders.
pub fn reissue_order(alloc: Global, key: Key, cells: &HoldingMap) -> Result<Order, EventFault>
    requires held { IsState (record { cells = cells.now }) }
    requires closed { IfSome (chart_of cells.now key) IsClosed }
    ensures given { Gives result (reissue_order cells.now key) }
    ensures keeps { result ≢ Err NoMemory → (model : Model) → model.state.cells ≡ cells.now →
        ReissueKeepsChart model key }
    ensures desk { result ≢ Err DeskFault }
{
    reissues_keep_the_chart();
    let file = reissue(alloc, key, cells)?;
    Ok(Order {
        command: Command::Load(file),
        success: Success::Reissue,
    })
}
