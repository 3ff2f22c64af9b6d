//! The grid of a chart.
//!
//! What is answered hangs on the boxes alone; rows and columns only say which of them to look at. So those are cut by
//! where the boxes reach and how large they are on average, for speed, and contracts see no more than the boxes.

ghost use Rattle.std.specs.Prelude.{IfOk};
ghost use Rattle.spatial_grid.specs.Box.{IsGridOf};

use crate::axis::{Axis, distance};
use crate::boxes::boxes_of;
use crate::candidates::{find_met, keep_each_once};
use crate::entries::entries_of;
use crate::entry::Entry;
use crate::kept::keeps_boxes;
use chart_model::{Cell, KeyMap, Name, NameList};
use plane_bounds::Bounds;
use std::alloc::{AllocError, Global};
use std::marker::Model;

/// The boxes of the features of a chart, in up to 64 by 64 buckets over all of them. Contracts see the map from the
/// name of a feature to its box.
///
/// A box stands in each bucket that it covers, up to 64; what covers more stands beside the buckets.
#[derive(Debug, Drop)]
pub struct Grid {
    /// In the order of the names.
    boxes: Vec<(Name, Bounds)>,
    /// In the order of the buckets.
    entries: Vec<Entry>,
    rows: Axis,
    columns: Axis,
}

impl Model for Grid {
    ghost use Rattle.std.specs.FinMap as map;
    ghost use Rattle.chart_model.specs.Names.{name_cmp, name_code};
    ghost use Rattle.plane_bounds.specs.declared.bounds.Bounds.{Bounds};
    ghost use Rattle.plane_bounds.specs.contracts.bounds.Bounds as bounds;
    ghost use Rattle.spatial_grid.specs.Buckets.{IsGrid};

    ghost Value = { map.FinMap name_cmp Bounds };

    ghost coded = { map.code name_code bounds.the_row.coded };

    ghost view = { λ grid. map.from_sorted grid.boxes.items };

    ghost invariant = { λ grid. IsGrid grid.boxes.items grid.entries.items grid.rows grid.columns };
}

/// Grids by the keys of the charts.
pub type GridMap = KeyMap<Grid>;

/// Where all boxes reach, on both axes: of none from the greatest to the least number. Nothing that is answered hangs
/// on it, but how fast.
fn reach(boxes: &[(Name, Bounds)]) -> Bounds {
    let mut all = Bounds::NOTHING;
    for (_, bounds) in boxes {
        all = all.around(*bounds);
    }
    all
}

/// How wide and how high boxes are on average. Nothing that is answered hangs on it, but how fast.
fn average_size(boxes: &[(Name, Bounds)]) -> (u64, u64) {
    let mut width: u64 = 0;
    let mut height: u64 = 0;
    for (_, bounds) in boxes {
        width = width.saturating_add(distance(bounds.x0, bounds.x1));
        height = height.saturating_add(distance(bounds.y0, bounds.y1));
    }
    let count = boxes.len().max(1) as u64;
    (width / count, height / count)
}

/// The grid of a chart: exactly the features whose shape has a point, each with the least box that holds its shape. It
/// costs the points of the chart's vector records and the pointers of its features, however large the shapes are.
pub fn grid_of(alloc: Global, cell: &Cell) -> Result<Grid, AllocError>
    ensures { IfOk result (λ grid. IsGridOf cell.now grid) }
{
    let boxes = boxes_of(alloc, cell)?;
    let all = reach(boxes.as_slice());
    let (width, height) = average_size(boxes.as_slice());
    let rows = Axis::over(all.y0, all.y1, height);
    let columns = Axis::over(all.x0, all.x1, width);
    let entries = entries_of(alloc, boxes.as_slice(), rows, columns)?;
    Ok(Grid {
        boxes,
        entries,
        rows,
        columns,
    })
}

impl Grid {
    ghost use Rattle.std.specs.Prelude.{◌≡◌, ◌≤◌, Some, IfOk, OnOk, OnErr, length};
    ghost use Rattle.chart_difference.specs.Difference.{HasAll};
    ghost use Rattle.spatial_grid.specs.Box.{IsGridOf};
    ghost use Rattle.spatial_grid.specs.Candidates.{AreCandidates};

    /// The names of the features whose box meets an area, in degrees times 10,000,000, in order, each once: boxes that
    /// touch it meet it. It costs what stands in the buckets that the area covers.
    pub fn candidates(&self, alloc: Global, area: &Bounds) -> Result<NameList, AllocError>
        ensures { IfOk result (λ names. AreCandidates self.now area.now names) }
    {
        let mut names = Vec::new(alloc);
        self.find_candidates(&mut names, area)?;
        Ok(NameList::from_vec(names))
    }

    /// Puts the names that `candidates` gives for an area in the place of others, for who asks for many areas. Returns
    /// how many boxes it looked at, one that stands in several buckets once for each: that is what it costs. Where there
    /// is no memory the list may hold any names.
    pub fn find_candidates(&self, names: &mut Vec<Name>, area: &Bounds) -> Result<usize, AllocError>
        ensures names { OnOk result (AreCandidates self.now area.now names.new.items) }

        // Each box whose name is told was looked at.
        ensures counted { IfOk result (λ looked_at. length names.new.items ≤ looked_at) }
    {
        let boxes = self.boxes.as_slice();
        let entries = self.entries.as_slice();
        let looked_at = find_met(names, boxes, *area, entries, self.rows, self.columns)?;
        keep_each_once(names);
        Ok(looked_at)
    }

    /// Brings the grid of a chart up to date: it was the grid of the old chart and becomes that of the new one, where
    /// all names whose records differ are among those that changed. Where there is no memory it stays as it was.
    ///
    /// An update mostly changes a chart in the attributes of features. So where each of the names is that of a feature
    /// which both charts have, with the same primitive and the same pointers, the boxes stay, and it costs the look-up
    /// of these features alone. Else the grid is made anew.
    pub fn absorb(
        &mut self,
        alloc: Global,
        old: &Cell,
        new: &Cell,
        changed: &NameList,
    ) -> Result<(), AllocError>
        requires grid { IsGridOf old.now self.old }
        requires changed { HasAll (Some old.now) (Some new.now) changed.now }
        ensures grid { OnOk result (IsGridOf new.now self.new) }
        ensures err { OnErr result (self.new ≡ self.old) }
    {
        if !keeps_boxes(old, new, changed.as_slice()) {
            *self = grid_of(alloc, new)?;
        }
        Ok(())
    }
}
