//! The names whose records a file changes.
//!
//! For an update they are found among its changes, without a look at the rest of the chart.

ghost use Rattle.std.specs.Prelude.{◌≡◌, map, IfOk, IfSome};
ghost use Rattle.std.specs.Option.{option_copied};
ghost use Rattle.chart_difference.specs.Difference.{AreChanged};
ghost use Rattle.update_sequence.specs.Others.{delete_none};
ghost use Rattle.chart_store.specs.Begun.{AreOfUpdate, AreTargets};
ghost use Rattle.chart_store.specs.declared.next.Naming.TheVariants as Naming;

use crate::next::Naming;
use chart_difference::{changed_among, changed_names, in_order_once};
use chart_model::codes::DELETE;
use chart_model::{Cell, Name, NameList, UpdateRecord};
use std::alloc::{AllocError, Global};
use update_sequence::{named_records_differ, other_records_stay};

/// The names of the records that changes change, in the order of the changes.
fn names_of(alloc: Global, changes: &[UpdateRecord]) -> Result<Vec<Name>, AllocError>
    ensures { IfOk result (λ names. names.items ≡ map (λ change. change.target) changes.now) }
{
    changes.iter().map(|change| change.target).collect(alloc)
}

/// Whether the changes delete no record.
fn delete_none(changes: &[UpdateRecord]) -> bool
    ensures { result ≡ delete_none changes.now }
{
    changes.iter().all(|change| change.ruin != DELETE)
}

/// The records that the changes of an update name, gathered before the changes are given away.
#[derive(Debug, Drop)]
pub(crate) struct Targets {
    /// Their names, in the order of the changes.
    pub names: Vec<Name>,
    /// Whether none of them is deleted.
    pub delete_none: bool,
}

/// The records that changes name.
fn gathered(alloc: Global, changes: &[UpdateRecord]) -> Result<Targets, AllocError>
    ensures { IfOk result (AreTargets changes.now) }
{
    Ok(Targets {
        names: names_of(alloc, changes)?,
        delete_none: delete_none(changes),
    })
}

/// The records that the changes of an update name, where they are asked for.
pub(crate) fn targets_by(
    alloc: Global,
    naming: Naming,
    changes: &[UpdateRecord],
) -> Result<Option<Targets>, AllocError>
    ensures { IfOk result (λ found. IfSome found (AreTargets changes.now)) }
{
    match naming {
        Naming::Named => Ok(Some(gathered(alloc, changes)?)),
        Naming::Unnamed => Ok(None),
    }
}

/// The names whose records differ between two charts, in order, where they are worked out.
pub(crate) fn changed_between(
    alloc: Global,
    naming: Naming,
    before: Option<&Cell>,
    now: Option<&Cell>,
) -> Result<NameList, AllocError>
    ensures { naming ≡ Naming.Named →
        IfOk result (AreChanged (option_copied before.entry) (option_copied now.entry)) }
{
    match naming {
        Naming::Named => changed_names(alloc, before, now),
        Naming::Unnamed => Ok(NameList::new(alloc)),
    }
}

/// The names whose records an update changes, in order. Those that its changes name are looked at alone, and no record
/// where none is deleted: then each of them has got another.
pub(crate) fn changed_by_update(
    alloc: Global,
    before: Option<&Cell>,
    now: Option<&Cell>,
    targets: Targets,
) -> Result<NameList, AllocError>
    requires { AreOfUpdate targets (option_copied before) (option_copied now) }
    ensures { IfOk result (AreChanged (option_copied before.entry) (option_copied now.entry)) }
{
    other_records_stay();
    named_records_differ();
    if targets.delete_none {
        return Ok(in_order_once(targets.names));
    }
    changed_among(alloc, before, now, targets.names)
}
