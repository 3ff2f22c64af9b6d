//! A chart that is being built, change by change.
//!
//! A chart has many records, so its changes may be made in steps, between which there is time for other work. Changes
//! are judged while they are lent, and then given away: the records that they insert take over their lists.

ghost use Rattle.std.specs.Prelude.{◌≡◌, ◌≢◌, ◌≤◌, true, false, None, Some, [], length, take, IfOk, IfErr, OnOk};
ghost use Rattle.chart_closure.specs.Closed.{IsClosed};
ghost use Rattle.chart_model.specs.Cell.{IsChartHeader};
ghost use Rattle.chart_model.specs.Memory.{Fails};
ghost use Rattle.update_sequence.specs.Answers.{GivesBuilt};
ghost use Rattle.update_sequence.specs.Built.{begun, folded};
ghost use Rattle.update_sequence.specs.Draft.{Advances, finished, first_draft};
ghost use Rattle.update_sequence.specs.Moves.{MOST_MOVES, moves_of};

use crate::chart::{begin, make_all};
use crate::extension::{check_asked, names_to_ask};
use crate::fault::BuildFault;
use chart_closure::closed_charts_stay_closed;
use chart_model::{Cell, ChangeList, Dataset, Header, Name, UpdateRecord};
use std::alloc::{AllocError, Global};
use std::collections::VecDeque;
use std::marker::Model;
use update_apply::{Moves, judge_change, make_change};

/// A chart that is being built, and the changes that are left. Contracts see the chart that the changes so far leave,
/// those that are left, and how many more items of lists these may move.
#[derive(Debug, Drop)]
pub struct Draft {
    chart: Cell,
    rest: VecDeque<UpdateRecord>,
    moves: Moves,
    /// The records whose closure is asked once all changes are made; `None` where that of the whole chart is.
    asked: Option<Vec<Name>>,
}

impl Model for Draft {
    ghost use Rattle.update_sequence.specs.Draft.{DraftValue, draft_code};

    ghost Value = { DraftValue };

    ghost coded = { draft_code };

    ghost use Rattle.std.specs.Prelude.{IfSome};
    ghost use Rattle.update_sequence.specs.Extended.{AreEnough};

    ghost view = { λ draft. record { cell = draft.chart; rest = draft.rest.items; moves = draft.moves } };

    ghost invariant = { λ draft. IfSome draft.asked (λ names. AreEnough names.items draft.chart draft.rest.items) };
}

impl Draft {
    /// The draft of a chart before the first of these changes, whose closure is asked whole. It takes no memory.
    pub(crate) fn begun(
        alloc: Global,
        chart: Option<Cell>,
        header: Header,
        changes: ChangeList,
    ) -> Draft
        requires { IsChartHeader header }
        ensures { result ≡ record { cell = begun chart header; rest = changes; moves = MOST_MOVES } }
    {
        Draft {
            chart: begin(alloc, chart, &header),
            rest: VecDeque::from_vec(changes.into_vec()),
            moves: Moves::of_file(),
            asked: None,
        }
    }

    /// The draft of the chart of a base file, which is given away. It takes no memory.
    pub fn of_base(alloc: Global, dataset: Dataset) -> Draft
        requires stands { dataset.cancels ≡ false }
        requires base { dataset.base ≡ true }
        ensures { result ≡ first_draft None dataset }
    {
        Draft::begun(alloc, None, dataset.header, dataset.changes)
    }

    /// The draft of the chart that an update, which is given away, makes of a closed one. The chart is lent, and shares
    /// with the draft each record that no change is made to.
    ///
    /// # Errors
    ///
    /// `AllocError` where there is no memory.
    pub fn of_update(alloc: Global, chart: &Cell, dataset: Dataset) -> Result<Draft, AllocError>
        requires stands { dataset.cancels ≡ false }
        requires closed { IsClosed chart.now }
        ensures { IfOk result (λ draft. draft ≡ first_draft (Some chart.now) dataset) }
    {
        closed_charts_stay_closed();
        let asked = names_to_ask(alloc, dataset.changes.as_slice())?;
        let copy = chart.copy(alloc)?;
        Ok(Draft {
            chart: begin(alloc, Some(copy), &dataset.header),
            rest: VecDeque::from_vec(dataset.changes.into_vec()),
            moves: Moves::of_file(),
            asked,
        })
    }

    /// How many changes are left.
    pub fn left(&self) -> usize
        ensures { result ≡ length self.now.rest }
    {
        self.rest.len()
    }

    /// Makes the next change, of which there has to be one.
    ///
    /// # Errors
    ///
    /// The fault of the change, and then the draft is as it was. After `NoMemory` nothing is said of the draft: it is
    /// of no more use.
    pub fn make_next(&mut self, alloc: Global) -> Result<(), BuildFault>
        requires { self.old.rest ≢ [] }
        ensures made { OnOk result (Advances self.old self.new 1) }
        ensures refused { IfErr result (λ fault.
            Fails BuildFault.NoMemory fault (folded self.old.cell (take 1 self.old.rest))) }
        ensures stays { IfErr result (λ fault. fault ≢ BuildFault.NoMemory → self.new ≡ self.old) }
    {
        let Some(change) = self.rest.front() else {
            unreachable!()
        };
        judge_change(&self.chart, change, &mut self.moves)?;
        let Some(change) = self.rest.pop_front() else {
            unreachable!()
        };
        if make_change(alloc, &mut self.chart, change).is_err() {
            // A change is lost, so nothing is known of what the others come to.
            self.asked = None;
            return Err(BuildFault::NoMemory);
        }
        Ok(())
    }

    /// Makes all changes that are left. Closure isn't asked.
    pub(crate) fn make_rest(self, alloc: Global) -> Result<Cell, BuildFault>
        ensures { GivesBuilt result (folded self.cell self.rest) }
    {
        let Draft {
            chart,
            rest,
            moves,
            asked: _,
        } = self;
        make_all(alloc, chart, rest, moves)
    }

    /// Makes all changes that are left, and gives the chart where it is closed: the chart that `build` gives of the
    /// data set.
    ///
    /// # Errors
    ///
    /// The fault of the first change that can't be made, or else that of closure; `NoMemory`.
    #[tactic(auto, unfolding(crate::specs::Draft::finished))]
    pub fn finish(self, alloc: Global) -> Result<Cell, BuildFault>
        ensures built { GivesBuilt result (finished self) }

        // A chart is built of no changes that may move more items of lists, all together, than were left to move.
        ensures within { OnOk result (moves_of self.cell self.rest ≤ self.moves) }
    {
        let Draft {
            chart,
            rest,
            moves,
            asked,
        } = self;
        let after = make_all(alloc, chart, rest, moves)?;
        check_asked(&after, asked)?;
        Ok(after)
    }
}
