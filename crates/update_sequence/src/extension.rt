//! The closure of a chart that is extended.
//!
//! A chart has many records and an update few: what no change can touch is not looked at again.

ghost use Rattle.std.specs.Prelude.{◌≡◌, ◌↔◌, true, Contains, IfOk, IfSome};
ghost use Rattle.std.specs.List.{filter_map};
ghost use Rattle.std.specs.Option.{option_map};
ghost use Rattle.chart_closure.specs.Closed.{closure_fault, IsClosed};
ghost use Rattle.chart_model.specs.Answers.{unless};
ghost use Rattle.update_sequence.specs.declared.fault.BuildFault.TheVariants as of_build;
ghost use Rattle.update_sequence.specs.Extended.{GivesExtended, are_faultless, are_local, asked_target};

use crate::fault::BuildFault;
use crate::local::{are_local, asked_target};
use chart_closure::{check, check_at, first_is_least};
use chart_model::{Cell, Name, UpdateRecord};
use std::alloc::{AllocError, Global};

/// The names of the records that may have got a fault of closure, in the order of the changes.
fn asked_targets(alloc: Global, changes: &[UpdateRecord]) -> Result<Vec<Name>, AllocError>
    ensures { IfOk result (λ names. names.items ≡ filter_map asked_target changes.now) }
{
    changes.iter().filter_map(asked_target).collect(alloc)
}

/// The same, each once: so a record is looked at once, however often it is changed.
fn asked_names(alloc: Global, changes: &[UpdateRecord]) -> Result<Vec<Name>, AllocError>
    ensures { IfOk result (λ names. (name : Name) →
        Contains names.items name ↔ Contains (filter_map asked_target changes.now) name) }
{
    let mut names = asked_targets(alloc, changes)?;
    names.sort_unstable();
    names.dedup();
    Ok(names)
}

/// The names of the records whose closure is asked once the changes are made: of those that may have got a fault, where
/// no change can break what other records are. `None` where the whole chart is asked.
pub(crate) fn names_to_ask(
    alloc: Global,
    changes: &[UpdateRecord],
) -> Result<Option<Vec<Name>>, AllocError>
    ensures local { IfOk result (λ asked. IfSome asked (λ names. are_local changes.now ≡ true)) }
    ensures names { IfOk result (λ asked. IfSome asked (λ names. (name : Name) →
        Contains names.items name ↔ Contains (filter_map asked_target changes.now) name)) }
{
    if !are_local(changes) {
        return Ok(None);
    }
    Ok(Some(asked_names(alloc, changes)?))
}

/// Whether no record of these names has a fault of closure.
fn are_faultless(chart: &Cell, names: &[Name]) -> bool
    ensures { result ≡ are_faultless chart.now names.now }
{
    names.iter().all(|name| check_at(chart, *name).is_ok())
}

/// Finds the fault of a chart that changes have left. The records that are asked are looked at alone, unless one of
/// them has a fault: the least has to be told. It takes no memory.
pub(crate) fn check_asked(chart: &Cell, asked: Option<Vec<Name>>) -> Result<(), BuildFault>
    requires { IfSome asked (λ names. are_faultless chart.now names.items ≡ true → IsClosed chart.now) }
    ensures { GivesExtended result chart.now
        (unless (option_map of_build.Closure (closure_fault chart.now)) chart.now) }
{
    // The law is one of cells, and a chart is known to be one where a field of it is read.
    let _ = &chart.header;
    first_is_least();
    match asked {
        Some(names) if are_faultless(chart, names.as_slice()) => {}
        _ => check(chart)?,
    }
    Ok(())
}
