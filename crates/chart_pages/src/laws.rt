//! What holds of states and their bytes.
//!
//! What was written must be read back as the same state, and no other bytes as that one: a store that is saved stands
//! on this.

ghost use Rattle.std.specs.Prelude.{◌≡◌, ◌↔◌, List, ℕ, Some};
ghost use Rattle.chart_model.specs.State.{StateValue};
ghost use Rattle.chart_pages.specs.Grammar.{Spells};
ghost use Rattle.chart_pages.specs.Reading.{state_in};

use chart_model::keys_are_tested;

/// The function that definitions cite gives the state that bytes spell.
pub fn states_are_spelled()
    ensures { (bytes : List ℕ) (state : StateValue) → (state_in bytes ≡ Some state) ↔ Spells bytes state }
{
    keys_are_tested();
}

/// A state has one spelling at most, and bytes spell one state at most: two states have two spellings.
pub fn spelled_once()
    ensures bytes { (state : StateValue) (a b : List ℕ) → Spells a state → Spells b state → a ≡ b }
    ensures state { (bytes : List ℕ) (a b : StateValue) → Spells bytes a → Spells bytes b → a ≡ b }
{
    keys_are_tested();
}
