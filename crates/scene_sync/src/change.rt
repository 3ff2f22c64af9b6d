//! The calls that bring a panel from what it shows to a target.
//!
//! Both maps are in the keys' order, so one pass over the two finds each key whose blocks differ.

ghost use Rattle.std.specs.Prelude.{◌≡◌, None, IfOk};
ghost use Rattle.std.specs.Option.{option_copied};
ghost use Rattle.scene_sync.specs.Calls.{StandFor, calls_between, calls_for, kept_at};
ghost use Rattle.scene_sync.specs.Walk.{first_key_of, least_of, left_of};

use crate::call::Call;
use crate::walk::Walk;
use chart_model::{Block, PanelKey};
use panel_port::BlockMap;
use std::alloc::{AllocError, Global};

/// The least key that is left in two walks: none where both are at their end.
fn least_key(one: &Walk, other: &Walk) -> Option<PanelKey>
    ensures { result ≡ least_of (first_key_of (left_of one.now)) (first_key_of (left_of other.now)) }
{
    match (one.first_key(), other.first_key()) {
        (Some(one), Some(other)) => Some(one.min(other)),
        (None, other) => other,
        (one, None) => one,
    }
}

/// The call for a key under which the target has this block, at this place, or none.
fn call_at(key: PanelKey, place: usize, block: Option<&Block>) -> Call
    ensures { result ≡ kept_at key place (option_copied block.entry) }
{
    match block {
        Some(_) => Call::Put(place),
        None => Call::Take(key),
    }
}

/// A call for each key whose blocks differ, in the keys' order.
fn calls_between(
    alloc: Global,
    shown: &BlockMap,
    target: &BlockMap,
) -> Result<Vec<Call>, AllocError>
    ensures { IfOk result (λ calls. StandFor target.now calls.items (calls_between shown.now target.now)) }
{
    let mut calls = Vec::new(alloc);
    let mut old = Walk::over(shown);
    let mut new = Walk::over(target);
    while let Some(key) = least_key(&old, &new) {
        let place = new.place();
        let before = old.pass(&key);
        let after = new.pass(&key);
        if before != after {
            calls.push(call_at(key, place, after))?;
        }
    }
    Ok(calls)
}

/// A call that takes out all blocks, and one for each block of the target.
fn calls_anew(alloc: Global, target: &BlockMap) -> Result<Vec<Call>, AllocError>
    ensures { IfOk result (λ calls. StandFor target.now calls.items (calls_for None target.now)) }
{
    let mut calls = Vec::with_capacity(alloc, target.len().saturating_add(1))?;
    calls.push(Call::Clear)?;
    for place in 0..target.len() {
        calls.push(Call::Put(place))?;
    }
    Ok(calls)
}

/// The calls of a refresh, where it is known what is shown, or isn't.
pub(crate) fn calls_for(
    alloc: Global,
    shown: Option<&BlockMap>,
    target: &BlockMap,
) -> Result<Vec<Call>, AllocError>
    ensures { IfOk result (λ calls.
        StandFor target.now calls.items (calls_for (option_copied shown.entry) target.now)) }
{
    match shown {
        Some(shown) => calls_between(alloc, shown, target),
        None => calls_anew(alloc, target),
    }
}
