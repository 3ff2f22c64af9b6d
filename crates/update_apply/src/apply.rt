//! A change made to a cell.
//!
//! A change is judged before anything is done, so that one that is refused leaves the cell as it
//! was.

ghost use Rattle.std.specs.Prelude.{◌≡◌, ◌+◌, ◌≤◌, None, OnOk, OnErr};
ghost use Rattle.std.specs.Option.{option_map};
ghost use Rattle.std.specs.FinMap as map;
ghost use Rattle.update_apply.specs.Changed.{cell_after, records_after, inserted_vector, inserted_feature};
ghost use Rattle.update_apply.specs.Changed.{modified_vector, modified_feature};
ghost use Rattle.update_apply.specs.Fault as spec;
ghost use Rattle.update_apply.specs.Moves.{cost_of};

use crate::fault::ChangeFault;
use crate::judge::{fault_by, held_for};
use crate::moves::Moves;
use crate::record::{Modification, copy_of, inserted_feature, inserted_vector};
use chart_model::codes::{DELETE, FEATURE, INSERT};
use chart_model::{Cell, FeatureMap, UpdateRecord, VectorMap};
use std::alloc::{AllocError, Global};

/// Changes a vector record of a cell by a change that is given away: a record that it inserts takes over its lists.
/// Where there is no memory nothing changes.
fn change_vectors(
    alloc: Global,
    vectors: &mut VectorMap,
    change: UpdateRecord,
) -> Result<(), AllocError>
    requires { spec.fault_by (option_map spec.held_vector (map.get vectors.old change.target)) change ≡ None }
    ensures ok { OnOk result (vectors.new ≡ records_after inserted_vector modified_vector vectors.old change) }
    ensures err { OnErr result (vectors.new ≡ vectors.old) }
{
    let name = change.target;
    match change.ruin {
        INSERT => {
            let vector = inserted_vector(alloc, change)?;
            vectors.insert_new(name, vector)
        }
        DELETE => vectors.remove(name),
        _ => vectors.edit(
            name,
            Modification {
                alloc,
                change: &change,
            },
        ),
    }
}

/// The same of a feature record.
fn change_features(
    alloc: Global,
    features: &mut FeatureMap,
    change: UpdateRecord,
) -> Result<(), AllocError>
    requires { spec.fault_by (option_map spec.held_feature (map.get features.old change.target)) change ≡ None }
    ensures ok { OnOk result (features.new ≡ records_after inserted_feature modified_feature features.old change) }
    ensures err { OnErr result (features.new ≡ features.old) }
{
    let name = change.target;
    match change.ruin {
        INSERT => {
            let feature = inserted_feature(alloc, change)?;
            features.insert_new(name, feature)
        }
        DELETE => features.remove(name),
        _ => features.edit(
            name,
            Modification {
                alloc,
                change: &change,
            },
        ),
    }
}

/// Judges a change of a cell, and takes what it may move from the budget of moves. It changes nothing of the cell.
///
/// # Errors
///
/// The first fault of the change; `NoMemory` where there is none and the budget is spent.
pub fn judge_change(
    cell: &Cell,
    change: &UpdateRecord,
    moves: &mut Moves,
) -> Result<(), ChangeFault>
    ensures fault { spec.Judges result (spec.fault_of cell.now change.now) }
    ensures passes { OnOk result (spec.fault_of cell.now change.now ≡ None) }

    // A change that passes spends what it may move, and is within what was left; no other spends anything.
    ensures spent { OnOk result (moves.old
        ≡ moves.new + cost_of (spec.held_under cell.now change.now.target) change.now) }
    ensures unspent { OnErr result (moves.new ≡ moves.old) }
{
    let held = held_for(cell, change);
    if let Some(fault) = fault_by(held, change) {
        return Err(fault);
    }
    moves.take(held, change).map_err(|_| ChangeFault::NoMemory)
}

/// Makes a change that has no fault, and is given away: a record that it inserts takes over its lists. Where there is
/// no memory the cell is as it was.
pub fn make_change(alloc: Global, cell: &mut Cell, change: UpdateRecord) -> Result<(), AllocError>
    requires { spec.fault_of cell.old change ≡ None }
    ensures ok { OnOk result (cell.new ≡ cell_after cell.old change) }
    ensures err { OnErr result (cell.new ≡ cell.old) }
{
    if change.target.rcnm == FEATURE {
        change_features(alloc, &mut cell.features, change)
    } else {
        change_vectors(alloc, &mut cell.vectors, change)
    }
}

/// Makes a change of one record to a cell. On any refusal the cell is as it was.
///
/// The fault that is told is the first of the change; want of memory comes only where there is none.
pub fn apply_record(
    alloc: Global,
    cell: &mut Cell,
    change: &UpdateRecord,
) -> Result<(), ChangeFault>
    ensures ok { OnOk result (cell.new ≡ cell_after cell.old change.now) }
    ensures err { OnErr result (cell.new ≡ cell.old) }
    ensures fault { spec.Judges result (spec.fault_of cell.old change.now) }

    // A change that may move more items than the budget of a whole file isn't made.
    ensures within { OnOk result (cost_of (spec.held_under cell.old change.now.target) change.now ≤ 268435456) }
{
    judge_change(cell, change, &mut Moves::of_file())?;
    let Ok(copy) = copy_of(change) else {
        return Err(ChangeFault::NoMemory);
    };
    make_change(alloc, cell, copy).map_err(|_| ChangeFault::NoMemory)
}
