//! Depth areas side by side, and places for objects.
//!
//! One chart serves all cases, so that a depth by itself tells which area it is from. What looks like a depth area and
//! is none lies in the same place.

use sample_rows::{Item, Row, Setting, feature, name, vector};

/// Two squares with the edge 1 between them, of 5 metres and of 2, and over both a dredged area of unknown depth with a
/// hole. A land area in the same place, and a line of the class of depth areas, are no depth areas.
pub static SQUARES: [Row; 18] = [
    vector!(110, 1, [], [(5, 50, 0)]),
    vector!(110, 2, [], [(100, 95, 0)]),
    vector!(110, 3, [], [(250, 50, 0), (195, 50, 0)]),
    vector!(110, 4, [], [(250, 50, 0)]),
    vector!(120, 1, [], [(100, 0, 0)]),
    vector!(120, 2, [], [(100, 100, 0)]),
    vector!(120, 3, [], [(10, 10, 0)]),
    vector!(120, 4, [], [(40, 40, 0)]),
    vector!(130, 1, [(120, 1, 1), (120, 2, 2)], []),
    vector!(130, 2, [(120, 2, 1), (120, 1, 2)], [(0, 100, 0), (0, 0, 0)]),
    vector!(
        130,
        3,
        [(120, 2, 1), (120, 1, 2)],
        [(200, 100, 0), (200, 0, 0)],
    ),
    vector!(
        130,
        4,
        [(120, 3, 1), (120, 3, 2)],
        [(90, 10, 0), (90, 90, 0), (10, 90, 0)],
    ),
    vector!(
        130,
        5,
        [(120, 4, 1), (120, 4, 2)],
        [(60, 40, 0), (60, 60, 0), (40, 60, 0)],
    ),
    Row {
        attrs: &[(87, b"5")],
        ..feature!(3, 1, [(130, 1, 1), (130, 2, 1)])
    },
    Row {
        attrs: &[(87, b"2")],
        ..feature!(3, 2, [(130, 1, 2), (130, 3, 2)])
    },
    Row {
        class: 46,
        ..feature!(3, 3, [(130, 4, 1), (130, 5, 1)])
    },
    Row {
        class: 71,
        ..feature!(3, 4, [(130, 4, 1), (130, 5, 1)])
    },
    feature!(2, 5, [(130, 1, 1)]),
];

/// In the square of 5 metres.
pub const DEEP: &[Item] = &[(110, 1, 255)];

/// On the edge between the squares.
pub const BETWEEN: &[Item] = &[(110, 2, 255)];

/// In the square of 2 metres, and outside.
pub const SHALLOW: &[Item] = &[(110, 3, 255)];

/// Outside the areas.
pub const OUTSIDE: &[Item] = &[(110, 4, 255)];

/// At a node that isn't there.
pub const NOWHERE: &[Item] = &[(110, 9, 255)];

/// The point feature 9 at a place.
pub fn object(class: u16, attrs: &'static [Setting], place: &'static [Item]) -> Row {
    Row {
        class,
        attrs,
        pointers: place,
        ..feature!(1, 9, [])
    }
}
