//! Whether a file may follow what is held of its cell.
//!
//! Numbers alone are compared, so a file that may not follow costs no chart.

ghost use Rattle.std.specs.Prelude.{◌≡◌};
ghost use Rattle.std.specs.Option.{option_copied};
ghost use Rattle.update_sequence.specs.Judged.{judged, judged_base, judged_update, is_older};

use crate::fault::SequenceFault;
use chart_model::{Dataset, Header, Held};

/// What becomes of a cell's live files.
#[derive(Clone, Copy, Debug, PartialEq, Eq)]
pub enum Effect {
    /// The file takes their place.
    Replace,
    /// The file follows them.
    Extend,
    /// The file follows them, and the cell has no chart from then on.
    Cancel,
}

/// Whether edition and update come before the held ones. Editions are compared first.
fn is_older(given: &Header, held: &Held) -> bool
    ensures { result ≡ is_older given.now held.now }
{
    given.edition < held.edition || (given.edition == held.edition && given.update < held.update)
}

/// Judges a base file: it may come again, and isn't older than what is held.
fn judge_base(held: Option<&Held>, given: &Header) -> Result<Effect, SequenceFault>
    ensures { result ≡ judged_base (option_copied held.entry) given.now }
{
    match held {
        Some(held) if is_older(given, held) => Err(SequenceFault::StaleBase {
            held_edition: held.edition,
            held_update: held.update,
            edition: given.edition,
            update: given.update,
        }),
        _ => Ok(Effect::Replace),
    }
}

/// Judges an update. Of one that cancels its cell the numbers aren't looked at.
fn judge_update(held: Option<&Held>, given: &Header, cancels: bool) -> Result<Effect, SequenceFault>
    ensures { result ≡ judged_update (option_copied held.entry) given.now cancels }
{
    let Some(held) = held else {
        return Err(SequenceFault::NoBase(given.key));
    };
    if held.cancelled {
        return Err(SequenceFault::Cancelled(given.key));
    }
    if cancels {
        return Ok(Effect::Cancel);
    }
    if given.edition != held.edition {
        return Err(SequenceFault::Edition {
            held: held.edition,
            given: given.edition,
        });
    }
    let wanted = u64::from(held.update) + 1;
    if u64::from(given.update) != wanted {
        return Err(SequenceFault::Gap {
            wanted,
            given: given.update,
        });
    }
    Ok(Effect::Extend)
}

/// Judges whether a file may follow what is held of its cell, `None` where nothing is held, and what
/// becomes of the live files then (S-57 Appendix B.1, 5.7 and 8.3.1). It takes no memory.
///
/// A base file whose edition and update aren't before the held ones replaces what is held: a new
/// edition or a re-issue. An update needs a cell that is held and not cancelled, and unless it cancels
/// the cell it has the held edition and the next update number.
#[tactic(auto, unfolding(crate::specs::Judged::judged))]
pub fn judge(held: Option<&Held>, dataset: &Dataset) -> Result<Effect, SequenceFault>
    ensures { result ≡ judged (option_copied held.entry) dataset.now }
{
    if dataset.base {
        judge_base(held, &dataset.header)
    } else {
        judge_update(held, &dataset.header, dataset.cancels)
    }
}
