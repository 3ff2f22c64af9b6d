//! Laws of the definitions.
//!
//! The crates above cite these of charts and of files, and no lemma of this crate.

ghost use Rattle.std.specs.Prelude.{◌≡◌, ◌≢◌, ◌⊎◌, ◌↔◌, ℕ, true, false, List, [], ◌∷◌};
ghost use Rattle.std.specs.Prelude.{◌+◌, ◌++◌, Option, Some, None, Ok, All, Contains, map, IfSome};
ghost use Rattle.std.specs.Option.{option_map};
ghost use Rattle.std.specs.Result.{IsOk, result_ok};
ghost use Rattle.chart_closure.specs.Closed.{IsClosed};
ghost use Rattle.update_sequence.specs.Others.{HasSame, HasOther, delete_none};
ghost use Rattle.chart_model.specs.Answers.{unless};
ghost use Rattle.chart_model.specs.Cell.{CellValue, IsCell};
ghost use Rattle.chart_model.specs.Change.{Change, IsChange};
ghost use Rattle.chart_model.specs.Dataset.{DatasetValue, IsDataset};
ghost use Rattle.chart_model.specs.State.{IsHolding};
ghost use Rattle.chart_model.specs.declared.name.Name.{Name};
ghost use Rattle.chart_model.specs.declared.state.Held.{Held};
ghost use Rattle.update_sequence.specs.Reading.{data_set_in};
ghost use Rattle.update_apply.specs.Changed.{cell_after};
ghost use Rattle.update_apply.specs.Fault.{fault_of};
ghost use Rattle.update_sequence.specs.declared.fault.BuildFault.TheVariants as of_build;
ghost use Rattle.update_sequence.specs.Built.{built, folded, folded_after, header_after};
ghost use Rattle.update_sequence.specs.Draft.{Advances, DraftValue, finished, first_draft};
ghost use Rattle.update_sequence.specs.Judged.{judged};
ghost use Rattle.update_sequence.specs.Moves.{moves_of};
ghost use Rattle.update_sequence.specs.declared.effect.Effect.TheVariants.{Replace, Extend, Cancel};
ghost use Rattle.update_sequence.specs.Rebuilt.{cancelled_numbers, chart_after, held_after, held_by, numbers_of};
ghost use Rattle.update_sequence.specs.Rebuilt.{rebuilt};
ghost use Rattle.update_sequence.specs.Sequence.{Follows, IsUpdateSequence, IsFileOf, Leaves, is_update_sequence};

use chart_closure::first_is_least;
use s57_records::{changes_are_kept, data_sets_are_kept};
use update_apply::{cells_are_kept, headers_are_kept};

/// What a cell file says keeps what every data set and every change keeps.
pub fn files_are_data_sets()
    ensures kept { (file : List ℕ) (dataset : DatasetValue) → data_set_in file ≡ Ok dataset → IsDataset dataset }
    ensures changes { (file : List ℕ) (dataset : DatasetValue) → data_set_in file ≡ Ok dataset →
        All IsChange dataset.changes }
{
    data_sets_are_kept();
    changes_are_kept();
}

/// A chart that is built is closed.
pub fn charts_are_closed()
    ensures { (chart : Option CellValue) (dataset : DatasetValue) (cell : CellValue) → built chart dataset ≡ Ok cell →
        IsClosed cell }
{
    first_is_least();
}

/// A chart that is built on a cell is a cell.
pub fn charts_are_cells()
    ensures { (chart : Option CellValue) (dataset : DatasetValue) (cell : CellValue) → IfSome chart IsCell →
        IsDataset dataset → All IsChange dataset.changes →
        dataset.cancels ≡ false → built chart dataset ≡ Ok cell → IsCell cell }
{
    cells_are_kept();
}

/// The chart of a base file has its header. That of an update has key, agency and scale of the chart
/// before, and the update's edition, number and date of issue.
pub fn headers_follow()
    ensures base { (dataset : DatasetValue) (cell : CellValue) → built None dataset ≡ Ok cell →
        cell.header ≡ dataset.header }
    ensures update { (chart : CellValue) (dataset : DatasetValue) (cell : CellValue) →
        built (Some chart) dataset ≡ Ok cell →
        cell.header ≡ header_after chart.header dataset.header }
{
    headers_are_kept();
}

/// What one file more leaves.
pub fn one_file_more()
    ensures none { (held_by [] ≡ None) × (rebuilt [] ≡ None) }
    ensures held { (files : List (List ℕ)) (file : List ℕ) → held_by (files ++ file ∷ [])
        ≡ held_after (held_by files) file }
    ensures chart { (files : List (List ℕ)) (file : List ℕ) → rebuilt (files ++ file ∷ [])
        ≡ chart_after (rebuilt files) file }
{}

/// A base file that may come first is an update sequence, and so is an update sequence with a file that may follow.
/// Each update sequence begins with update sequences.
pub fn sequences_grow()
    ensures first { (key file : List ℕ) → Follows key [] file → IsUpdateSequence key (file ∷ []) }
    ensures next { (key : List ℕ) (files : List (List ℕ)) (file : List ℕ) → IsUpdateSequence key files →
        Follows key files file → IsUpdateSequence key (files ++ file ∷ []) }
    ensures before { (key : List ℕ) (files rest : List (List ℕ)) → files ≢ [] → IsUpdateSequence key (files ++ rest) →
        IsUpdateSequence key files }
{}

/// What the test of lists says is whether they are update sequences.
pub fn sequences_are_tested()
    ensures { (key : List ℕ) (files : List (List ℕ))
        → (is_update_sequence key files ≡ true) ↔ IsUpdateSequence key files }
{}

/// What is live once a file is taken over: a base file stands alone, any other follows those before it.
/// The files are an update sequence, and what they leave is the held numbers and the chart of the file's effect.
pub fn accepted_files_follow()
    ensures replaces { (key file : List ℕ) (dataset : DatasetValue) (held : Option Held) → IsFileOf key file dataset →
        judged held dataset ≡ Ok Replace → IsOk (built None dataset) →
        Leaves key (file ∷ []) (Some (numbers_of dataset.header)) (result_ok (built None dataset)) }
    ensures extends { (key : List ℕ) (files : List (List ℕ)) (file : List ℕ) (dataset : DatasetValue) →
        IsUpdateSequence key files → IsFileOf key file dataset →
        judged (held_by files) dataset ≡ Ok Extend → IsOk (built (rebuilt files) dataset) →
        Leaves key (files ++ file ∷ []) (Some (numbers_of dataset.header)) (result_ok (built (rebuilt files) dataset)) }
    ensures cancels { (key : List ℕ) (files : List (List ℕ)) (file : List ℕ) (dataset : DatasetValue) →
        IsUpdateSequence key files → IsFileOf key file dataset →
        judged (held_by files) dataset ≡ Ok Cancel →
        Leaves key (files ++ file ∷ []) (option_map cancelled_numbers (held_by files)) None }
{
    files_are_data_sets();
    one_file_more();
    sequences_grow();
}

/// An update sequence, the numbers that it leaves and the chart that it builds can be held under its
/// key, and the chart is closed.
pub fn sequences_are_held()
    ensures held { (key : List ℕ) (files : List (List ℕ)) → IsUpdateSequence key files →
        (held : Held) × (held_by files ≡ Some held)
        × IsHolding key (record { held = held; files = files; chart = rebuilt files }) }
    ensures closed { (key : List ℕ) (files : List (List ℕ))
        → IsUpdateSequence key files → IfSome (rebuilt files) IsClosed }
{
    files_are_data_sets();
    charts_are_closed();
    charts_are_cells();
    headers_follow();
}

/// The changes of a data set are made in turn: what a list and one behind it make of a cell is what the
/// second makes of what the first leaves.
pub fn changes_are_made_in_turn()
    ensures none { (cell : CellValue) → folded cell [] ≡ Ok cell }
    ensures one { (cell : CellValue) (change : Change) → folded cell (change ∷ [])
        ≡ unless (option_map of_build.Change (fault_of cell change)) (cell_after cell change) }
    ensures turn { (cell : CellValue) (first rest : List Change) →
        folded cell (first ++ rest) ≡ folded_after (folded cell first) rest }
{}

/// A change of an update names a record, or the record is as it was.
pub fn other_records_stay()
    ensures { (chart after : CellValue) (dataset : DatasetValue) (name : Name) → built (Some chart) dataset ≡ Ok after →
        Contains (map (λ change. change.target) dataset.changes) name ⊎ HasSame chart after name }
{}

/// Where no change of an update deletes a record, there is another record under each name that one of them has: an
/// insertion puts one where none was, and a modification raises the version.
pub fn named_records_differ()
    ensures { (chart after : CellValue) (dataset : DatasetValue) (name : Name) → built (Some chart) dataset ≡ Ok after →
        delete_none dataset.changes ≡ true → Contains (map (λ change. change.target) dataset.changes) name →
        HasOther chart after name }
{}

/// The chart that a data set builds is the one that its draft comes to.
pub fn drafts_build_charts()
    ensures { (chart : Option CellValue) (dataset : DatasetValue) →
        built chart dataset ≡ finished (first_draft chart dataset) }
{}

/// Changes that are made leave what a draft comes to as it was, and what all its changes may move beside its budget.
/// Those of one call and those of the next are made in turn.
pub fn drafts_advance()
    ensures comes { (before after : DraftValue) (made : ℕ) → Advances before after made →
        finished after ≡ finished before }
    ensures budget { (before after : DraftValue) (made : ℕ) → Advances before after made →
        moves_of before.cell before.rest + after.moves ≡ moves_of after.cell after.rest + before.moves }
    ensures none { (draft : DraftValue) → Advances draft draft 0 }
    ensures turn { (first second third : DraftValue) (made more : ℕ) → Advances first second made →
        Advances second third more → Advances first third (made + more) }
{}
