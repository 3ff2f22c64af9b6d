//! What changes can do to the closure of a chart.
//!
//! Most changes can harm no record but their own, and then the others need not be looked at.

ghost use Rattle.std.specs.Prelude.{◌≡◌};
ghost use Rattle.update_sequence.specs.Extended.{asked_target, keeps_coords, is_local, are_local};

use chart_model::codes::{DELETE, FEATURE, INSERT, MODIFY};
use chart_model::{Control, Name, UpdateRecord};

/// Whether an edit of coordinates takes none away.
fn keeps_coords(edit: Option<Control>) -> bool
    ensures { result ≡ keeps_coords edit }
{
    match edit {
        Some(control) => control.instruction != DELETE,
        None => true,
    }
}

/// Whether no record but the changed one can get a fault of closure by the change: it deletes no record, and of a
/// vector record it leaves the pointers and takes away no coordinate.
fn is_local(change: &UpdateRecord) -> bool
    ensures { result ≡ is_local change.now }
{
    match change.ruin {
        INSERT => true,
        MODIFY => {
            change.target.rcnm == FEATURE
                || (change.pointer_edit.is_none() && keeps_coords(change.coord_edit))
        }
        _ => false,
    }
}

/// Whether no change can give another record a fault of closure.
pub(crate) fn are_local(changes: &[UpdateRecord]) -> bool
    ensures { result ≡ are_local changes.now }
{
    changes.iter().all(is_local)
}

/// The changed record, where it may itself get a fault of closure by such a change: it is new, or its
/// pointers are edited.
pub(crate) fn asked_target(change: &UpdateRecord) -> Option<Name>
    ensures { result ≡ asked_target change.now }
{
    if change.ruin != MODIFY || change.pointer_edit.is_some() {
        Some(change.target)
    } else {
        None
    }
}
