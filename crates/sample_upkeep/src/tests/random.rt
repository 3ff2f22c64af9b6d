//! Updates at random.
//!
//! Updates that follow one another bring up what no single one does, such as the last user of an edge that goes and
//! comes again. Numbers begin at 1 in every run, so that a fault is found again.

ghost use Rattle.std.specs.Prelude.{IfOk};
ghost use Rattle.spatial_grid.specs.Box.{IsGridOf};
ghost use Rattle.topology_cache.specs.Users.{AreUsersOf};

use super::kept::{Kept, is_as_anew, kept_of, updated};
use super::updates::CHART;
use chart_model::Cell;
use sample_rows::{BARE, Row, chart, feature, name, vector};
use std::alloc::Global;
use std::test::Fail;

/// Features that come: in pairs that differ in an attribute alone.
static COME: [Row; 8] = [
    feature!(3, 1, [(130, 1, 1), (130, 2, 1)]),
    Row {
        attrs: &[(7, b"1")],
        ..feature!(3, 1, [(130, 1, 1), (130, 2, 1)])
    },
    feature!(3, 1, [(130, 3, 1), (130, 3, 2)]),
    Row {
        attrs: &[(7, b"1")],
        ..feature!(3, 1, [(130, 3, 1), (130, 3, 2)])
    },
    feature!(2, 1, [(130, 1, 1), (130, 3, 1)]),
    feature!(1, 1, [(110, 1, 255)]),
    feature!(1, 1, [(120, 2, 255)]),
    feature!(3, 1, []),
];

/// A feature that goes.
static GONE: Row = Row { ruin: 2, ..BARE };

/// A node that moves.
static MOVES: [[Row; 2]; 2] = [
    [
        Row {
            name: name!(120, 2),
            ruin: 2,
            ..BARE
        },
        vector!(120, 2, [], [(15, 15, 0)]),
    ],
    [
        Row {
            name: name!(120, 2),
            ruin: 2,
            ..BARE
        },
        vector!(120, 2, [], [(10, 10, 0)]),
    ],
];

/// The next of numbers without a visible order.
fn number_after(number: u32) -> u32 {
    number.wrapping_mul(1_664_525).wrapping_add(1_013_904_223)
}

/// The change of the feature of a number.
fn under(rcid: u32, row: &Row) -> Row {
    Row {
        name: name!(100, rcid),
        ..*row
    }
}

/// A feature of a number up to 12 comes, where there is none, and else goes or is replaced.
fn feature_changed(alloc: Global, kept: &mut Kept, cell: &Cell, number: u32) -> Result<Cell, Fail>
    requires users { AreUsersOf cell.now kept.old.users }
    requires grid { IsGridOf cell.now kept.old.grid }
    ensures users { IfOk result (λ new. AreUsersOf new kept.new.users) }
    ensures grid { IfOk result (λ new. IsGridOf new kept.new.grid) }
{
    let rcid = 1 + (number >> 8) % 12;
    let rows = [
        under(rcid, &GONE),
        under(rcid, &COME[(number >> 20) as usize % 8]),
    ];
    if !cell.features.contains(name!(100, rcid)) {
        updated(alloc, kept, cell, &rows[1..])
    } else if number >> 30 == 0 {
        updated(alloc, kept, cell, &rows[..1])
    } else {
        updated(alloc, kept, cell, &rows)
    }
}

/// A node moves, or a feature changes.
fn changed(alloc: Global, kept: &mut Kept, cell: &Cell, number: u32) -> Result<Cell, Fail>
    requires users { AreUsersOf cell.now kept.old.users }
    requires grid { IsGridOf cell.now kept.old.grid }
    ensures users { IfOk result (λ new. AreUsersOf new kept.new.users) }
    ensures grid { IfOk result (λ new. IsGridOf new kept.new.grid) }
{
    if (number >> 24) % 8 == 0 {
        updated(alloc, kept, cell, &MOVES[(number >> 16) as usize % 2])
    } else {
        feature_changed(alloc, kept, cell, number)
    }
}

/// After each of a hundred updates.
#[test]
fn random_updates(rt: HostRuntime) -> Result<(), Fail> {
    let alloc = rt.alloc();
    let mut cell = chart(alloc, &CHART)?;
    let mut kept = kept_of(alloc, &cell)?;
    let mut number = 1;
    for at in 0..100 {
        number = number_after(number);
        cell = changed(alloc, &mut kept, &cell, number)?;
        assert!(rt; is_as_anew(alloc, &kept, &cell)?, "update {at}");
    }
    Ok(())
}
