//! The legs of a route in a picture.
//!
//! A leg is straight in longitude and latitude, and so it is in the picture.

ghost use Rattle.std.specs.Prelude.{◌≡◌, ◌++◌, ◌<◌, ◌+ℤ◌, ◌^◌, ◌∷◌, [], unsigned_abs, IfOk, OnOk};
ghost use Rattle.chart_svg.specs.Voyage.{leg_line, leg_lines, route_pen, leg_element, route_elements};
ghost use Rattle.chart_svg.specs.View.{spot_at};

use crate::element::{Element, ElementList, Origin};
use crate::figure::{Dash, Figure, Pen, SpotLines, SpotList};
use crate::look::Look;
use crate::view::{Spot, View};
use plane_geometry::Pt;
use route_check::Route;
use route_geometry::Leg;
use std::alloc::{AllocError, Global};

/// The colour of planned routes.
const ROUTE_TOKEN: &[u8] = b"PLRTE";

/// Where a point that is shifted stands in the picture.
fn shifted(view: &View, p: Pt, x: i64, y: i64) -> Spot
    requires east { unsigned_abs x < 2 ^ 32 }
    requires north { unsigned_abs y < 2 ^ 32 }
    ensures { result ≡ spot_at view.now (p.x +ℤ x) (p.y +ℤ y) }
{
    view.spot_at(i64::from(p.x) + x, i64::from(p.y) + y)
}

/// Adds the line of a leg that is shifted.
fn push_leg_line(
    alloc: Global,
    lines: &mut SpotLines,
    view: &View,
    leg: &Leg,
    x: i64,
    y: i64,
) -> Result<(), AllocError>
    requires east { unsigned_abs x < 2 ^ 32 }
    requires north { unsigned_abs y < 2 ^ 32 }
    ensures { OnOk result (lines.new ≡ lines.old ++ leg_line view.now leg.now x y ∷ []) }
{
    let mut line = SpotList::new(alloc);
    line.push(shifted(view, leg.a, x, y))?;
    line.push(shifted(view, leg.b, x, y))?;
    lines.push(line)
}

/// The lines of a leg: itself, and the way of each corner of its box.
fn leg_lines(alloc: Global, view: &View, leg: &Leg) -> Result<SpotLines, AllocError>
    ensures { IfOk result (λ lines. lines ≡ leg_lines view.now leg.now) }
{
    let w = i64::from(leg.w);
    let h = i64::from(leg.h);
    let mut lines = SpotLines::new(alloc);
    push_leg_line(alloc, &mut lines, view, leg, 0, 0)?;
    push_leg_line(alloc, &mut lines, view, leg, -w, -h)?;
    push_leg_line(alloc, &mut lines, view, leg, w, -h)?;
    push_leg_line(alloc, &mut lines, view, leg, w, h)?;
    push_leg_line(alloc, &mut lines, view, leg, -w, h)?;
    Ok(lines)
}

/// What legs are drawn with.
fn route_pen(look: &Look) -> Pen
    ensures { result ≡ route_pen look.now }
{
    Pen {
        colour: look.colour(ROUTE_TOKEN),
        width: 2,
        dash: Dash::Solid,
    }
}

/// The element of the leg of a number.
fn leg_element(
    alloc: Global,
    view: &View,
    look: &Look,
    number: u32,
    leg: &Leg,
) -> Result<Element, AllocError>
    ensures { IfOk result (λ element. element ≡ leg_element view.now look.now (number, leg.now)) }
{
    Ok(Element {
        origin: Origin::FromLeg(number),
        figure: Figure::Lines(leg_lines(alloc, view, leg)?, route_pen(look)),
    })
}

/// Adds the elements of a route's legs.
pub(crate) fn push_route(
    alloc: Global,
    elements: &mut ElementList,
    view: &View,
    look: &Look,
    route: &Route,
) -> Result<(), AllocError>
    ensures { OnOk result (elements.new ≡ elements.old ++ route_elements view.now look.now route.now) }
{
    for before in 0..route.leg_count() {
        let number = before + 1;
        let leg = route.leg(number);
        elements.push(leg_element(alloc, view, look, number, &leg)?)?;
    }
    Ok(())
}
