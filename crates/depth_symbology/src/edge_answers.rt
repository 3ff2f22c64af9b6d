//! Answers that are kept for the edges of a drawing.
//!
//! Many areas may share an edge. What lies beyond it is the same for all of them, so it is asked once.

ghost use Rattle.std.specs.Prelude.{◌≡◌, ℤ, OnOk, OnErr};
ghost use Rattle.std.specs.FinMap as finite;
ghost use Rattle.chart_model.specs.Cell.{CellValue};
ghost use Rattle.depth_symbology.specs.EdgeAnswers.{AreAnswers};

use chart_model::Name;
use std::alloc::{AllocError, Global};
use std::collections::BTreeMap;
use std::marker::Model;

/// Whether an unsafe area points to each of some edges, by the edges' names. The answers are those of one chart at one
/// safety contour. Contracts see a finite map.
#[derive(Debug, Drop)]
pub struct EdgeAnswers {
    tree: BTreeMap<Name, bool>,
}

impl Model for EdgeAnswers {
    ghost use Rattle.std.specs.FinMap as finite;
    ghost use Rattle.depth_symbology.specs.EdgeAnswers.{AnswersValue, answers_code};

    ghost Value = { AnswersValue };

    ghost coded = { answers_code };

    ghost view = { λ answers. finite.from_entries answers.tree.entries };
}

impl EdgeAnswers {
    /// No answers: those of any drawing that begins. It takes no memory.
    pub fn new(alloc: Global) -> EdgeAnswers
        ensures { (cell : CellValue) (contour : ℤ) → AreAnswers cell contour result }
    {
        EdgeAnswers {
            tree: BTreeMap::new(alloc),
        }
    }

    /// The answer for an edge, where it is kept. It costs one look-up, and takes no memory.
    pub(crate) fn get(&self, edge: Name) -> Option<bool>
        ensures { result ≡ finite.get self.now edge }
    {
        self.tree.get(&edge).copied()
    }

    /// Keeps the answer for an edge. Where there is no memory nothing changes.
    pub(crate) fn keep(&mut self, edge: Name, borders: bool) -> Result<(), AllocError>
        ensures ok { OnOk result (self.new ≡ finite.insert self.old edge borders) }
        ensures err { OnErr result (self.new ≡ self.old) }
    {
        self.tree.insert(edge, borders)?;
        Ok(())
    }
}
