//! A route with its dangers over the drawings of charts.

ghost use Rattle.std.specs.Prelude.{◌≡◌, ◌++◌, IfOk, OnOk};
ghost use Rattle.std.specs.Option.{option_copied};
ghost use Rattle.chart_svg.specs.Voyage.{voyage_elements, elements_of};

use crate::chart::Chart;
use crate::dangers::push_dangers;
use crate::element::{ElementList, push_drawing};
use crate::legs::push_route;
use crate::look::Look;
use crate::view::View;
use route_check::{DangerList, Route};
use std::alloc::{AllocError, Global};

/// A route, and the dangers that were found along it.
#[derive(Clone, Copy)]
pub struct Voyage<'a> {
    pub route: &'a Route,
    pub dangers: &'a DangerList,
}

/// Adds the elements of a voyage, where there is one.
fn push_voyage(
    alloc: Global,
    elements: &mut ElementList,
    view: &View,
    look: &Look,
    charts: &[Chart],
    voyage: Option<&Voyage>,
) -> Result<(), AllocError>
    ensures { OnOk result (elements.new
        ≡ elements.old ++ voyage_elements view.now look.now charts.now (option_copied voyage.entry)) }
{
    let Some(voyage) = voyage else {
        return Ok(());
    };
    push_route(alloc, elements, view, look, voyage.route)?;
    let dangers = voyage.dangers.as_slice();
    push_dangers(alloc, elements, view, look, charts, dangers)
}

/// The elements of a picture: one for each item of the charts' drawings, chart by chart and in the drawings' order; over
/// them one for each leg of the route, and then one for each danger along it.
pub fn elements_of(
    alloc: Global,
    view: &View,
    look: &Look,
    charts: &[Chart],
    voyage: Option<&Voyage>,
) -> Result<ElementList, AllocError>
    ensures { IfOk result (λ elements.
        elements ≡ elements_of view.now look.now charts.now (option_copied voyage.entry)) }
{
    let mut elements = ElementList::new(alloc);
    for chart in charts {
        push_drawing(alloc, &mut elements, view, look, chart)?;
    }
    push_voyage(alloc, &mut elements, view, look, charts, voyage)?;
    Ok(elements)
}
