//! Items one after the other.
//!
//! Each procedure adds to the items of a block, so that no list is made in between.

ghost use Rattle.std.specs.Prelude.{◌≡◌, ◌++◌, ◌∷◌, [], OnOk, OnErr};
ghost use Rattle.draw_items.specs.Items.{item};

use chart_model::{Item, ItemList, Octets, Target};
use std::alloc::{AllocError, Global};

/// Adds an instruction at a target. Where there is no memory nothing changes.
pub fn push_item(
    alloc: Global,
    items: &mut ItemList,
    target: Target,
    text: &[u8],
) -> Result<(), AllocError>
    ensures ok { OnOk result (items.new ≡ items.old ++ item target text.now ∷ []) }
    ensures err { OnErr result (items.new ≡ items.old) }
{
    let text = Octets::from_slice(alloc, text)?;
    items.push(Item { target, text })
}
