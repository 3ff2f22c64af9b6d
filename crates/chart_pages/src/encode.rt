//! Bytes of states.
//!
//! Every state has a spelling, so want of memory is all that can be answered in its place.

ghost use Rattle.std.specs.Prelude.{◌≡◌, IfOk};
ghost use Rattle.chart_pages.specs.Grammar.{Spells, spelling};

use crate::cells::put_cells;
use chart_model::{Octets, State};
use std::alloc::{AllocError, Global};

/// The bytes that spell a state.
#[tactic(auto, unfolding(crate::specs::Grammar::spelling))]
pub fn encode_store(alloc: Global, state: &State) -> Result<Octets, AllocError>
    ensures spelled { IfOk result (λ octets. Spells octets state.now) }
    ensures bytes { IfOk result (λ octets. octets ≡ spelling state.now) }
{
    let mut out = Octets::from_vec(Vec::new(alloc));
    put_cells(&mut out, &state.cells)?;
    Ok(out)
}
