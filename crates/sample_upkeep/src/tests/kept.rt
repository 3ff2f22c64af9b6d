//! What is kept of a chart, made and brought up to date.
//!
//! What is kept is compared by what it answers, since how a grid is cut and how users are held may differ. Users are
//! given more names than differ, as they may be; the grid those alone.

ghost use Rattle.std.specs.Prelude.{◌≡◌, ◌<◌, IfOk, OnOk};
ghost use Rattle.spatial_grid.specs.Box.{IsGridOf};
ghost use Rattle.topology_cache.specs.Users.{AreUsersOf};

use chart_difference::changed_names;
use chart_model::{Cell, Name, NameList};
use chart_ports::Steps;
use plane_bounds::Bounds;
use sample_rows::{Row, add_rows, name};
use spatial_grid::{Grid, grid_of};
use std::alloc::{AllocError, Global};
use std::marker::Brand;
use std::sync::ledger::{Blank, Ledger};
use std::test::Fail;
use topology_cache::{Users, users_of};

/// The users of a chart, and its grid.
#[derive(Drop)]
pub struct Kept {
    pub users: Users,
    pub grid: Grid,
}

fn users_with<C: Ledger>(alloc: Global, cell: &Cell, blank: Blank) -> Result<Users, AllocError>
    requires name { blank.name ≡ C.name }
    requires parts { blank.parts ≡ C.parts }
    requires share { 0 < C.parts }
    ensures { IfOk result (λ users. AreUsersOf cell.now users) }
{
    let mut steps = Steps::<C>::new(blank);
    users_of(alloc, cell, &mut steps)
}

/// What is kept of a chart, made anew.
pub fn kept_of(alloc: Global, cell: &Cell) -> Result<Kept, AllocError>
    ensures users { IfOk result (λ kept. AreUsersOf cell.now kept.users) }
    ensures grid { IfOk result (λ kept. IsGridOf cell.now kept.grid) }
{
    let users = users_with::<Brand>(alloc, cell, Blank::new(1))?;
    let grid = grid_of(alloc, cell)?;
    Ok(Kept { users, grid })
}

/// Names that are given beside those whose records differ: of features that differ or stay, twice, of vector records,
/// and of no record.
static MORE: [Name; 6] = [
    name!(100, 3),
    name!(100, 3),
    name!(100, 9),
    name!(130, 1),
    name!(120, 1),
    name!(100, 77),
];

fn absorb_users<C: Ledger>(
    alloc: Global,
    users: &mut Users,
    old: &Cell,
    new: &Cell,
    blank: Blank,
) -> Result<(), AllocError>
    requires name { blank.name ≡ C.name }
    requires parts { blank.parts ≡ C.parts }
    requires share { 0 < C.parts }
    requires users { AreUsersOf old.now users.old }
    ensures { OnOk result (AreUsersOf new.now users.new) }
{
    let mut names = changed_names(alloc, Some(old), Some(new))?.into_vec();
    names.extend_from_slice(&MORE)?;
    let changed = NameList::from_vec(names);
    let mut steps = Steps::<C>::new(blank);
    users.absorb(alloc, old, new, &changed, &mut steps)
}

fn absorb_grid(alloc: Global, grid: &mut Grid, old: &Cell, new: &Cell) -> Result<(), AllocError>
    requires { IsGridOf old.now grid.old }
    ensures { OnOk result (IsGridOf new.now grid.new) }
{
    let changed = changed_names(alloc, Some(old), Some(new))?;
    grid.absorb(alloc, old, new, &changed)
}

/// The chart that changes leave, with what is kept brought up to date with it.
pub fn updated(alloc: Global, kept: &mut Kept, cell: &Cell, rows: &[Row]) -> Result<Cell, Fail>
    requires users { AreUsersOf cell.now kept.old.users }
    requires grid { IsGridOf cell.now kept.old.grid }
    ensures users { IfOk result (λ new. AreUsersOf new kept.new.users) }
    ensures grid { IfOk result (λ new. IsGridOf new kept.new.grid) }
{
    let mut new = cell.copy(alloc)?;
    add_rows(alloc, &mut new, rows)?;
    absorb_users::<Brand>(alloc, &mut kept.users, cell, &new, Blank::new(1))?;
    absorb_grid(alloc, &mut kept.grid, cell, &new)?;
    Ok(new)
}

/// Records that features point to, and one that is not there.
static POINTED: [Name; 7] = [
    name!(110, 1),
    name!(120, 1),
    name!(120, 2),
    name!(130, 1),
    name!(130, 2),
    name!(130, 3),
    name!(130, 4),
];

/// Areas: the west, the east, two places and all.
static AREAS: [Bounds; 5] = [
    Bounds {
        x0: 0,
        y0: 0,
        x1: 9,
        y1: 20,
    },
    Bounds {
        x0: 11,
        y0: 0,
        x1: 30,
        y1: 20,
    },
    Bounds {
        x0: 7,
        y0: 7,
        x1: 7,
        y1: 7,
    },
    Bounds {
        x0: 15,
        y0: 15,
        x1: 15,
        y1: 15,
    },
    Bounds {
        x0: -99,
        y0: -99,
        x1: 99,
        y1: 99,
    },
];

fn are_same_users(kept: &Users, anew: &Users) -> bool {
    for record in &POINTED {
        if kept.edge_users(*record) != anew.edge_users(*record) {
            return false;
        }
    }
    true
}

fn are_same_answers(alloc: Global, kept: &Grid, anew: &Grid) -> Result<bool, AllocError> {
    for area in &AREAS {
        let names = kept.candidates(alloc, area)?;
        if names.as_slice() != anew.candidates(alloc, area)?.as_slice() {
            return Ok(false);
        }
    }
    Ok(true)
}

/// Whether what is kept answers as what is made of the chart anew.
pub fn is_as_anew(alloc: Global, kept: &Kept, cell: &Cell) -> Result<bool, AllocError> {
    let anew = kept_of(alloc, cell)?;
    Ok(are_same_users(&kept.users, &anew.users) && are_same_answers(alloc, &kept.grid, &anew.grid)?)
}
