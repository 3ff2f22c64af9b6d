//! The names whose records differ.
//!
//! Whoever shows a chart asks which of its objects to look at anew after a command.

ghost use Rattle.std.specs.Prelude.{◌≡◌, ◌≢◌, ◌↔◌, ◌++◌, ◌||◌, None, is_none, IfOk, OnOk, Contains};
ghost use Rattle.std.specs.List.{filter};
ghost use Rattle.std.specs.List.Sorted.{IsStrictlySortedBy};
ghost use Rattle.std.specs.Option.{option_copied};
ghost use Rattle.std.specs.FinMap as map;
ghost use Rattle.chart_model.specs.Names.{name_cmp};
ghost use Rattle.chart_model.specs.declared.name.Name.{Name};
ghost use Rattle.chart_difference.specs.Same.{differ};
ghost use Rattle.chart_difference.specs.Difference.{AreChanged, HasAll, vector_in, feature_in, names_in};

use crate::same::{same_features, same_vectors};
use chart_model::codes::FEATURE;
use chart_model::{Cell, Feature, Name, NameList, NameMap, Vector};
use std::alloc::{AllocError, Global};

/// The vector record under a name: none where there is no chart. No feature has the name of a vector record.
#[tactic(auto, using(crate::proofs::RecordNames::no_feature))]
fn vector_in(chart: Option<&Cell>, name: Name) -> Option<&Vector>
    ensures found { option_copied result ≡ vector_in (option_copied chart.entry) name }
    ensures alone { name.rcnm ≢ FEATURE → feature_in (option_copied chart.entry) name ≡ None }
{
    match chart {
        Some(cell) => cell.vectors.get(name),
        None => None,
    }
}

/// The feature record under a name: none where there is no chart. No vector record has the name of a feature.
#[tactic(auto, using(crate::proofs::RecordNames::no_vector))]
fn feature_in(chart: Option<&Cell>, name: Name) -> Option<&Feature>
    ensures found { option_copied result ≡ feature_in (option_copied chart.entry) name }
    ensures alone { name.rcnm ≡ FEATURE → vector_in (option_copied chart.entry) name ≡ None }
{
    match chart {
        Some(cell) => cell.features.get(name),
        None => None,
    }
}

/// Whether the records under a name differ. The name tells whether they are features or vector records.
fn differ(old: Option<&Cell>, new: Option<&Cell>, name: Name) -> bool
    ensures { result ≡ differ (option_copied old.entry) (option_copied new.entry) name }
{
    if name.rcnm == FEATURE {
        !same_features(feature_in(old, name), feature_in(new, name))
    } else {
        !same_vectors(vector_in(old, name), vector_in(new, name))
    }
}

/// The names, of these, whose records differ.
fn keep_changed(
    alloc: Global,
    old: Option<&Cell>,
    new: Option<&Cell>,
    names: Vec<Name>,
) -> Result<NameList, AllocError>
    ensures { IfOk result (λ kept. kept
        ≡ filter (differ (option_copied old.entry) (option_copied new.entry)) names.items) }
{
    let mut kept = NameList::new(alloc);
    for name in names {
        if differ(old, new, name) {
            kept.push(name)?;
        }
    }
    Ok(kept)
}

/// These names in order, each once. It takes no memory.
pub fn in_order_once(names: Vec<Name>) -> NameList
    ensures rising { IsStrictlySortedBy name_cmp result }
    ensures same { (name : Name) → Contains result name ↔ Contains names.items name }
{
    let mut names = names;
    names.sort_unstable();
    names.dedup();
    NameList::from_vec(names)
}

/// Of names that have all those whose records differ, these, in order and each once.
pub fn changed_among(
    alloc: Global,
    old: Option<&Cell>,
    new: Option<&Cell>,
    names: Vec<Name>,
) -> Result<NameList, AllocError>
    requires { HasAll (option_copied old) (option_copied new) names.items }
    ensures { IfOk result (AreChanged (option_copied old.entry) (option_copied new.entry)) }
{
    keep_changed(alloc, old, new, in_order_once(names).into_vec())
}

/// Adds the names of records.
fn push_names<V: Drop>(names: &mut Vec<Name>, records: &NameMap<V>) -> Result<(), AllocError>
    ensures { OnOk result (names.new.items ≡ names.old.items ++ map.keys records.now) }
{
    for (name, _) in records.iter() {
        names.push(*name)?;
    }
    Ok(())
}

/// Adds the names of a chart's records in their order, those of features first: none where there is no chart.
fn push_all(names: &mut Vec<Name>, chart: Option<&Cell>) -> Result<(), AllocError>
    ensures { OnOk result (names.new.items ≡ names.old.items ++ names_in (option_copied chart.entry)) }
{
    if let Some(cell) = chart {
        push_names(names, &cell.features)?;
        push_names(names, &cell.vectors)?;
    }
    Ok(())
}

/// Whether there is one chart at most: each of its records was put, or was taken out.
fn lacks_one(old: Option<&Cell>, new: Option<&Cell>) -> bool
    ensures { result ≡ (is_none (option_copied old.entry) || is_none (option_copied new.entry)) }
{
    old.is_none() || new.is_none()
}

/// The names whose records differ between two charts of a cell, in order: those that were put, changed or
/// taken out. Where there is no chart there is no record.
pub fn changed_names(
    alloc: Global,
    old: Option<&Cell>,
    new: Option<&Cell>,
) -> Result<NameList, AllocError>
    ensures { IfOk result (AreChanged (option_copied old.entry) (option_copied new.entry)) }
{
    let mut names = Vec::new(alloc);
    push_all(&mut names, old)?;
    push_all(&mut names, new)?;
    if lacks_one(old, new) {
        return Ok(in_order_once(names));
    }
    changed_among(alloc, old, new, names)
}
