//! Why something is refused of a panel.
//!
//! Want of memory is no refusal: after it the panels and their scenes are used no more.

ghost use Rattle.std.specs.Prelude.{◌≡◌};
ghost use Rattle.panel_scenes.specs.declared.fault.PaintingFault.TheVariants.{Refused};

use thiserror::Error;

/// Why something is refused of a panel.
#[derive(Clone, Copy, Debug, PartialEq, Eq, Error)]
pub enum PanelRefusal {
    /// There is no panel of this number.
    #[error("there is no panel {0}")]
    NoPanel(u32),
    /// No refresh of the panel is under way.
    #[error("no refresh is under way")]
    NothingBegun,
    /// The panel of this number failed, and counted it.
    #[error("panel {0} failed")]
    Failed(u32),
    /// A refresh of the panel is under way.
    #[error("a refresh is under way")]
    Busy,
}

/// Why nothing is told of a painting.
#[derive(Clone, Copy, Debug, PartialEq, Eq, Error)]
pub enum PaintingFault {
    /// It is refused.
    #[error("{0}")]
    Refused(PanelRefusal),
    /// There was no memory for a block.
    #[error("no memory for a block")]
    NoMemory,
}

impl From<PanelRefusal> for PaintingFault {
    ghost from_gives = { λ refusal fault. fault ≡ Refused refusal };

    fn from(refusal: PanelRefusal) -> PaintingFault {
        PaintingFault::Refused(refusal)
    }
}
