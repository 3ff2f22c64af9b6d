//! The features that point to edges.
//!
//! A feature that points to an edge twice is one user of it, and users stand in the order of their names, not in that
//! of the rows. Other modules take their users from here.

ghost use Rattle.std.specs.Prelude.{◌≡◌, ◌<◌, IfOk};
ghost use Rattle.topology_cache.specs.Users.{AreUsersOf};

use chart_model::{Cell, Name};
use chart_ports::Steps;
use sample_rows::{Row, chart, feature, name, vector};
use std::alloc::{AllocError, Global};
use std::marker::Brand;
use std::sync::ledger::{Blank, Ledger};
use std::test::Fail;
use topology_cache::{Users, users_of};

/// Two areas on either side of the edge 1, a line over it that goes there and back, a point at a node, and a feature
/// without a shape.
static CHART: [Row; 11] = [
    vector!(110, 1, [], [(7, 7, 0)]),
    vector!(120, 1, [], [(10, 0, 0)]),
    vector!(120, 2, [], [(10, 10, 0)]),
    vector!(130, 1, [(120, 1, 1), (120, 2, 2)], []),
    vector!(130, 2, [(120, 2, 1), (120, 1, 2)], [(0, 10, 0), (0, 0, 0)]),
    vector!(130, 3, [(120, 2, 1), (120, 1, 2)], [(20, 10, 0)]),
    feature!(3, 20, [(130, 1, 2), (130, 3, 2)]),
    feature!(3, 3, [(130, 1, 1), (130, 2, 1)]),
    feature!(2, 100, [(130, 1, 1), (130, 2, 1), (130, 1, 2)]),
    feature!(1, 9, [(110, 1, 255)]),
    feature!(255, 1, []),
];

fn users_with<C: Ledger>(alloc: Global, cell: &Cell, blank: Blank) -> Result<Users, AllocError>
    requires name { blank.name ≡ C.name }
    requires parts { blank.parts ≡ C.parts }
    requires share { 0 < C.parts }
    ensures { IfOk result (λ users. AreUsersOf cell.now users) }
{
    let mut steps = Steps::<C>::new(blank);
    users_of(alloc, cell, &mut steps)
}

/// The users of the edges of a chart.
pub fn find_users(alloc: Global, cell: &Cell) -> Result<Users, AllocError>
    ensures { IfOk result (λ users. AreUsersOf cell.now users) }
{
    users_with::<Brand>(alloc, cell, Blank::new(1))
}

/// A record, and the features that point to it.
static USERS: [(Name, &[Name]); 6] = [
    (
        name!(130, 1),
        &[name!(100, 3), name!(100, 20), name!(100, 100)],
    ),
    (name!(130, 2), &[name!(100, 3), name!(100, 100)]),
    (name!(130, 3), &[name!(100, 20)]),
    (name!(110, 1), &[name!(100, 9)]),
    // no feature points to the node, and there is no edge 4
    (name!(120, 1), &[]),
    (name!(130, 4), &[]),
];

#[test]
fn users(rt: HostRuntime) -> Result<(), Fail> {
    let cell = chart(rt.alloc(), &CHART)?;
    let users = find_users(rt.alloc(), &cell)?;
    for (at, (edge, wanted)) in USERS.iter().enumerate() {
        assert!(rt; users.edge_users(*edge) == *wanted, "case {at}");
    }
    Ok(())
}
