//! What holds of the definitions.
//!
//! A refresh is told by its calls. These laws tie them to the blocks that differ, and to what is shown in the end.

ghost use Rattle.std.specs.Prelude.{◌≡◌, ◌≢◌, ◌↔◌, true, Option, None, Some};
ghost use Rattle.std.specs.FinMap as finite;
ghost use Rattle.chart_model.specs.declared.drawing.Block.{Block};
ghost use Rattle.chart_model.specs.declared.drawing.PanelKey.{PanelKey};
ghost use Rattle.panel_port.specs.Panel as panel;
ghost use Rattle.scene_sync.specs.Calls.{after_calls, call_for, calls_for, changes};
ghost use Rattle.scene_sync.specs.Same.{same_block};

/// What the test of definitions says of two blocks is whether they are equal.
pub fn blocks_are_compared()
    ensures { (one other : Block) → (same_block one other ≡ true) ↔ (one ≡ other) }
{}

/// What the definitions say of the calls of a refresh: there is one for each key whose blocks differ, and none for
/// another; and after all of them the target is shown, whatever was shown before.
pub fn calls_are_differences()
    ensures differing { (shown target : panel.Scene) (key : PanelKey) → finite.get shown key ≢ finite.get target key
        → finite.get (changes shown target) key ≡ Some (call_for target key) }
    ensures equal { (shown target : panel.Scene) (key : PanelKey) → finite.get shown key ≡ finite.get target key
        → finite.get (changes shown target) key ≡ None }
    ensures target { (shown : Option panel.Scene) (target : panel.Scene)
        → after_calls true (calls_for shown target) shown ≡ Some target }
{}
