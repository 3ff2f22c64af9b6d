//! Routes worked out by hand from the grammar of their files.
//!
//! A line is a box or a point by its place in the file, so some faulty lines are good ones in the wrong place, and most
//! are one byte beside a good one. A file with several faults has to be answered with the first.

use plane_geometry::Pt;
use route_check::RouteFault::{BadLine, Few, Many};
use route_check::{PtList, RouteFault, read_route, routes_are_read};
use route_geometry::Leg;
use std::test::Fail;

/// The text of a file, and its fault.
static FAULTS: [(&[u8], RouteFault); 66] = [
    // too few points, and lines that say nothing
    (b"", Few(0)),
    (b"\n", Few(0)),
    (b"# a route\r\n\r\n#", Few(0)),
    (b"box 1 1", Few(0)),
    (b"box 1 1\n5 6", Few(1)),
    (b"\n# a route\nbox 1 1\n\n5 6\n# one point\n\n", Few(1)),
    // no box
    (b"box 100000001 0\n1 1\n2 2", BadLine(1)),
    (b"box 0 100000001\n1 1\n2 2", BadLine(1)),
    (b"box 0000000000000000001 1\n1 1\n2 2", BadLine(1)),
    (b"box 1 0000000000000000001\n1 1\n2 2", BadLine(1)),
    (b"box -1 1\n1 1\n2 2", BadLine(1)),
    (b"box -0 0\n1 1\n2 2", BadLine(1)),
    (b"box 1 -1\n1 1\n2 2", BadLine(1)),
    (b"box +1 1\n1 1\n2 2", BadLine(1)),
    (b"box 1 +1\n1 1\n2 2", BadLine(1)),
    (b"box 1.0 1\n1 1\n2 2", BadLine(1)),
    (b"box 1 1 \n1 1\n2 2", BadLine(1)),
    (b"box 1 1 1\n1 1\n2 2", BadLine(1)),
    (b"box  1 1\n1 1\n2 2", BadLine(1)),
    (b"box 1  1\n1 1\n2 2", BadLine(1)),
    (b" box 1 1\n1 1\n2 2", BadLine(1)),
    (b"box\t1\t1\n1 1\n2 2", BadLine(1)),
    (b"Box 1 1\n1 1\n2 2", BadLine(1)),
    (b"boxes 1 1\n1 1\n2 2", BadLine(1)),
    (b"bo 1 1\n1 1\n2 2", BadLine(1)),
    (b"box 1\n1 1\n2 2", BadLine(1)),
    (b"box 1 \n1 1\n2 2", BadLine(1)),
    (b"box\n1 1\n2 2", BadLine(1)),
    (b" ", BadLine(1)),
    (b" #\nbox 1 1\n1 1\n2 2", BadLine(1)),
    // a point before the box, and a second box
    (b"1 1\nbox 1 1\n2 2", BadLine(1)),
    (b"\n# a route\n1 1\nbox 1 1", BadLine(3)),
    (b"box 1 1\nbox 1 1\n1 1\n2 2", BadLine(2)),
    (b"box 1 1\n1 1\n2 2\nbox 1 1", BadLine(4)),
    // no point
    (b"box 1 1\n1800000001 0\n2 2", BadLine(2)),
    (b"box 1 1\n-1800000001 0\n2 2", BadLine(2)),
    (b"box 1 1\n0 900000001\n2 2", BadLine(2)),
    (b"box 1 1\n0 -900000001\n2 2", BadLine(2)),
    (b"box 1 1\n4294967296 0\n2 2", BadLine(2)),
    (b"box 1 1\n0000000000000000001 0\n2 2", BadLine(2)),
    (b"box 1 1\n0 -0000000000000000001\n2 2", BadLine(2)),
    (b"box 1 1\n+1 1\n2 2", BadLine(2)),
    (b"box 1 1\n1 +1\n2 2", BadLine(2)),
    (b"box 1 1\n--1 1\n2 2", BadLine(2)),
    (b"box 1 1\n- 1\n2 2", BadLine(2)),
    (b"box 1 1\n1 -\n2 2", BadLine(2)),
    (b"box 1 1\n1,1\n2 2", BadLine(2)),
    (b"box 1 1\n1.5 1\n2 2", BadLine(2)),
    (b"box 1 1\n1  1\n2 2", BadLine(2)),
    (b"box 1 1\n 1 1\n2 2", BadLine(2)),
    (b"box 1 1\n1 1 \n2 2", BadLine(2)),
    (b"box 1 1\n1 1 1\n2 2", BadLine(2)),
    (b"box 1 1\n1\n2 2", BadLine(2)),
    (b"box 1 1\n #\n1 1\n2 2", BadLine(2)),
    // the first bad line, before the number of points
    (b"box 1 1\n1 1\nx", BadLine(3)),
    (b"box 1 1\n\n# one\nx\ny", BadLine(4)),
    (b"box 1\nx", BadLine(1)),
    // a carriage return at each place where none is removed
    (b"\rbox 1 1\n1 1\n2 2\n", BadLine(1)),
    (b"box 1 1\r\r\n1 1\n2 2\n", BadLine(1)),
    (b"box\r 1 1\n1 1\n2 2\n", BadLine(1)),
    (b"box 1 1\n1 1\r\r\n2 2\n", BadLine(2)),
    (b"box 1 1\n1\r 1\n2 2\n", BadLine(2)),
    (b"box 1 1\r\n1 1\r\n2 2\r", BadLine(3)),
    (b"box 1 1\r", BadLine(1)),
    (b"\r", BadLine(1)),
    (b"box 1 1\n1 1\n2 2\n\r", BadLine(4)),
];

#[test]
fn first_faults(rt: HostRuntime) {
    for (text, fault) in &FAULTS {
        let found = read_route(rt.alloc(), text).err();
        assert_eq!(rt; found, Some(*fault), "{text:?}");
    }
}

/// The text of a file, its half-widths in longitude and latitude, and its points.
static ROUTES: [(&[u8], u32, u32, &[Pt]); 6] = [
    (
        b"box 0 0\n0 0\n0 0",
        0,
        0,
        &[Pt { x: 0, y: 0 }, Pt { x: 0, y: 0 }],
    ),
    (
        b"box 100000000 100000000\n1800000000 900000000\n-1800000000 -900000000\n",
        100_000_000,
        100_000_000,
        &[
            Pt {
                x: 1_800_000_000,
                y: 900_000_000,
            },
            Pt {
                x: -1_800_000_000,
                y: -900_000_000,
            },
        ],
    ),
    // longitudes beyond 90 degrees
    (
        b"box 3 5\n900000001 1\n-900000001 -1\n11 12",
        3,
        5,
        &[
            Pt {
                x: 900_000_001,
                y: 1,
            },
            Pt {
                x: -900_000_001,
                y: -1,
            },
            Pt { x: 11, y: 12 },
        ],
    ),
    // leading zeros, and 0 with a sign
    (
        b"box 000000000100000000 00\n-0 0\n0007 -000000000000000008",
        100_000_000,
        0,
        &[Pt { x: 0, y: 0 }, Pt { x: 7, y: -8 }],
    ),
    // lines that say nothing, before, between and behind
    (
        b"# a route\n\nbox 1 2\n#\n\n3 4\n\n# 9 9\n5 6\n\n#",
        1,
        2,
        &[Pt { x: 3, y: 4 }, Pt { x: 5, y: 6 }],
    ),
    // carriage returns before line feeds
    (
        b"#\r\n\r\nbox 1 2\r\n3 4\r\n\r\n5 6\r\n",
        1,
        2,
        &[Pt { x: 3, y: 4 }, Pt { x: 5, y: 6 }],
    ),
];

#[test]
fn routes(rt: HostRuntime) -> Result<(), Fail> {
    for (text, w, h, points) in &ROUTES {
        let route = read_route(rt.alloc(), text)?;
        assert_eq!(rt; route.w, *w, "{text:?}");
        assert_eq!(rt; route.h, *h, "{text:?}");
        assert!(rt; route.points.as_slice() == *points, "{text:?}");
    }
    routes_are_read();
    Ok(())
}

#[test]
fn legs(rt: HostRuntime) -> Result<(), Fail> {
    let route = read_route(rt.alloc(), b"box 7 9\n1 -2\n3 4\n-5 6\n")?;
    assert_eq!(rt; route.leg_count(), 2);
    let first = Leg {
        a: Pt { x: 1, y: -2 },
        b: Pt { x: 3, y: 4 },
        w: 7,
        h: 9,
    };
    assert_eq!(rt; route.leg(1), first);
    let second = Leg {
        a: Pt { x: 3, y: 4 },
        b: Pt { x: -5, y: 6 },
        w: 7,
        h: 9,
    };
    assert_eq!(rt; route.leg(2), second);
    Ok(())
}

#[test]
fn a_thousand_points(rt: HostRuntime) -> Result<(), Fail> {
    let mut text = String::from_str(rt.alloc(), "box 1 2")?;
    for number in 1u32..1_001 {
        write!(text, "\n{number} -{number}")?;
    }
    let route = read_route(rt.alloc(), text.as_bytes())?;
    assert_eq!(rt; route.leg_count(), 999);
    let last = Leg {
        a: Pt { x: 999, y: -999 },
        b: Pt {
            x: 1_000,
            y: -1_000,
        },
        w: 1,
        h: 2,
    };
    assert_eq!(rt; route.leg(999), last);
    // one more, and a bad line behind them
    text.push_str("\n0 0")?;
    let fault = read_route(rt.alloc(), text.as_bytes()).err();
    assert_eq!(rt; fault, Some(Many(1_001)));
    text.push_str("\n0 0\n#\n0")?;
    let fault = read_route(rt.alloc(), text.as_bytes()).err();
    assert_eq!(rt; fault, Some(BadLine(1_005)));
    Ok(())
}

#[test]
fn points_of_a_route(rt: HostRuntime) -> Result<(), Fail> {
    for (count, taken) in [
        (0usize, false),
        (1, false),
        (2, true),
        (1_000, true),
        (1_001, false),
    ] {
        let points = vec![in rt.alloc(); Pt { x: 5, y: 6 }; count]?;
        let list = PtList::from_vec(points);
        assert_eq!(rt; list.is_some(), taken, "{count}");
    }
    Ok(())
}
