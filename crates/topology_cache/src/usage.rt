//! Uses: which feature points to which record, one by one.
//!
//! Features come in the order of their own names. Put in the order of what they point to, the uses of one record stand
//! together, so that its users are made at once and not one by one in a tree.

ghost use Rattle.std.specs.Prelude.{◌≡◌, ◌+◌, ◌≤◌, ◌&&◌, ◌||◌, OnOk, IfOk};
ghost use Rattle.std.specs.FinMap as finite;
ghost use Rattle.chart_model.specs.declared.name.Name.{Name};
ghost use Rattle.topology_cache.specs.Users.{same_name, points_to_any};
ghost use Rattle.topology_cache.specs.Sets.{is_use, pointers_at};

use chart_model::{Cell, Name, Pointer};
use chart_ports::Steps;
use std::alloc::{AllocError, Global};
use std::sync::ledger::Ledger;

/// A feature, the user, points to a record, the target.
#[derive(Clone, Copy, Debug)]
pub(crate) struct Use {
    pub(crate) target: Name,
    pub(crate) user: Name,
}

/// Adds that a feature uses each record that its pointers name.
fn push_uses(uses: &mut Vec<Use>, user: Name, pointers: &[Pointer]) -> Result<(), AllocError>
    ensures { OnOk result ((edge name : Name) → is_use uses.new.items edge name
        ≡ ((points_to_any edge pointers.now && same_name user name) || is_use uses.old.items edge name)) }
{
    for pointer in pointers {
        uses.push(Use {
            target: pointer.target,
            user,
        })?;
    }
    Ok(())
}

/// What the features of a chart use. It looks at each feature once, and counts it as a step before it does so.
pub(crate) fn uses_of<C: Ledger>(
    alloc: Global,
    cell: &Cell,
    steps: &mut Steps<C>,
) -> Result<Vec<Use>, AllocError>
    ensures uses { IfOk result (λ uses. (edge name : Name) →
        is_use uses.items edge name ≡ points_to_any edge (pointers_at cell.now name)) }
    ensures counted { OnOk result (steps.new ≡ steps.old + finite.len cell.now.features) }
    ensures at_most { steps.new ≤ steps.old + finite.len cell.now.features }
{
    let mut uses = Vec::new(alloc);
    for (name, feature) in cell.features.iter() {
        steps.tick();
        push_uses(&mut uses, *name, feature.pointers.as_slice())?;
    }
    Ok(uses)
}

/// The same uses in the order of the records that are used.
pub(crate) fn in_order(mut uses: Vec<Use>) -> Result<Vec<Use>, AllocError>
    ensures { IfOk result (λ sorted. (edge name : Name) →
        is_use sorted.items edge name ≡ is_use uses.items edge name) }
{
    uses.sort_by_key(|one| one.target)?;
    Ok(uses)
}
