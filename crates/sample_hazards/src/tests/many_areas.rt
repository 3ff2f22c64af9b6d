//! A hazard over 1,000 depth areas.
//!
//! A body that gives up where many areas are is still proved, as want of memory is an answer of each of these calls.

use crate::tests::squares::{DEEP, SQUARES, object};
use area_rings::feature_shape;
use chart_model::{Cell, Settings};
use depth_values::codes::OBSTRN;
use depth_values::{
    Effort, areas_under, depth_areas, hazard_depth, hazard_depth_among, hazard_depth_at,
};
use hazard_symbology::obstrn04;
use sample_rows::{
    Drawn, Row, SETTINGS, Setting, add_rows, are_items, chart, feature, name, whole,
};
use std::alloc::Global;
use std::test::Fail;

/// The number of the first of the areas.
const FIRST: u32 = 1_001;

/// The number of the last.
const LAST: u32 = 2_000;

/// The squares, and 1,000 areas in the place of the first: of 20 metres all but one, which is of 1.5; and an
/// obstruction at their bottom.
fn many_areas(alloc: Global, shoal: u32) -> Result<Cell, Fail> {
    let mut cell = chart(alloc, &SQUARES)?;
    for number in FIRST..=LAST {
        let depth: &'static [Setting] = if number == shoal {
            &[(87, b"1.5")]
        } else {
            &[(87, b"20")]
        };
        let row = Row {
            attrs: depth,
            ..feature!(3, number, [(130, 1, 1), (130, 2, 1)])
        };
        add_rows(alloc, &mut cell, &[row])?;
    }
    let hazard = object(OBSTRN, &[(187, b"3"), (93, b"1")], DEEP);
    add_rows(alloc, &mut cell, &[hazard])?;
    Ok(cell)
}

/// The depth of the hazard: with the areas to be found, with those that were found, and by the shape that was made.
fn depths(alloc: Global, cell: &Cell) -> Result<[i32; 3], Fail> {
    let feature = cell.features.get(name!(100, 9)).ok_or("a feature")?;
    let areas = depth_areas(alloc, cell)?;
    let shape = feature_shape(alloc, cell, feature)?.ok_or("a shape")?;
    let mut effort = Effort::whole();
    Ok([
        hazard_depth(alloc, cell, feature)?,
        hazard_depth_among(alloc, &mut effort, &areas, cell, feature)?,
        hazard_depth_at(alloc, &mut effort, &areas, feature, &shape)?,
    ])
}

/// Whether the areas under the hazard are the first square and then the 1,000 in its place, in order.
fn are_all_under(alloc: Global, cell: &Cell) -> Result<bool, Fail> {
    let feature = cell.features.get(name!(100, 9)).ok_or("a feature")?;
    let shape = feature_shape(alloc, cell, feature)?.ok_or("a shape")?;
    let names = areas_under(alloc, cell, &shape)?;
    let (first, others) = names.as_slice().split_first().ok_or("an area")?;
    let mut in_order = *first == name!(100, 1) && others.len() == 1_000;
    for (number, name) in (FIRST..=LAST).zip(others) {
        in_order = in_order && *name == name!(100, number);
    }
    Ok(in_order)
}

/// Whether this is drawn of the hazard at a safety contour.
fn draws(alloc: Global, cell: &Cell, contour: i32, wanted: &[Drawn]) -> Result<bool, Fail> {
    let settings = Settings {
        safety_contour: contour,
        ..SETTINGS
    };
    let items = obstrn04(alloc, cell, &settings, name!(100, 9))?;
    Ok(are_items(&items, wanted))
}

// The least depth is found where it is that of the first area, of one among the others and of the last.
#[test]
fn a_hazard_over_many_areas(rt: HostRuntime) -> Result<(), Fail> {
    for shoal in [FIRST, 1_500, LAST] {
        let cell = many_areas(rt.alloc(), shoal)?;
        assert!(rt; are_all_under(rt.alloc(), &cell)?, "{shoal}");
        assert_eq!(rt; depths(rt.alloc(), &cell)?, [150; 3], "{shoal}");
        let isolated = draws(rt.alloc(), &cell, 150, whole![b"SY(ISODGR01)"])?;
        let deeper = draws(rt.alloc(), &cell, 149, whole![b"SY(OBSTRN01)"])?;
        assert!(rt; isolated && deeper, "{shoal}");
    }
    Ok(())
}

/// Whether the depth of the hazard is answered after some tests of points against segments.
fn is_answered_after(alloc: Global, cell: &Cell, tests: usize) -> Result<bool, Fail> {
    let feature = cell.features.get(name!(100, 9)).ok_or("a feature")?;
    let areas = depth_areas(alloc, cell)?;
    let mut effort = Effort::whole();
    effort.spend(tests)?;
    Ok(hazard_depth_among(alloc, &mut effort, &areas, cell, feature).is_ok())
}

// A drawing asks for 300,000,000 tests and no more.
#[test]
fn an_effort_that_is_spent(rt: HostRuntime) -> Result<(), Fail> {
    let cell = many_areas(rt.alloc(), FIRST)?;
    assert!(rt; is_answered_after(rt.alloc(), &cell, 299_900_000)?);
    assert!(rt; !is_answered_after(rt.alloc(), &cell, 300_000_000)?);
    assert!(rt; Effort::whole().spend(300_000_001).is_err());
    Ok(())
}
