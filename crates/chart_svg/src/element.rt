//! The elements of a picture.
//!
//! One item of a drawing is one element, so that what stands in a picture can be held against the drawing.

ghost use Rattle.std.specs.Prelude.{◌≡◌, ◌++◌, IfOk, OnOk};
ghost use Rattle.chart_svg.specs.Element.{item_element, block_elements, drawing_elements};

use crate::chart::Chart;
use crate::figure::{Figure, figure_of};
use crate::look::Look;
use crate::subject::{Subject, shaped};
use crate::view::View;
use chart_model::{Item, Key, Octets, Sequence};
use draw_list::Drawn;
use route_check::Danger;
use std::alloc::{AllocError, Global};

/// Where an element comes from.
#[derive(Debug, Drop)]
pub enum Origin {
    /// An item of a drawing: the key of its cell, the number of its feature and its instruction.
    FromItem(Key, u32, Octets),
    /// The leg of a route with this number, counted from 1.
    FromLeg(u32),
    /// A row of the report along a route.
    FromDanger(Danger),
}

/// An element of a picture.
#[derive(Debug, Drop)]
pub struct Element {
    pub origin: Origin,
    pub figure: Figure,
}

/// Elements in order: what comes later is drawn over what came before.
pub type ElementList = Sequence<Element>;

/// The element of an item of a feature, under the key of its chart.
fn item_element(
    alloc: Global,
    view: &View,
    look: &Look,
    key: Key,
    subject: &Subject,
    item: &Item,
) -> Result<Element, AllocError>
    ensures { IfOk result (λ element.
        element ≡ item_element view.now look.now key subject.now.cell.now subject.now.rcid item.now) }
{
    Ok(Element {
        origin: Origin::FromItem(key, subject.rcid, item.text.clone()?),
        figure: figure_of(alloc, view, look, subject, item)?,
    })
}

/// Adds the elements of a block's items.
fn push_block(
    alloc: Global,
    elements: &mut ElementList,
    view: &View,
    look: &Look,
    chart: &Chart,
    drawn: &Drawn,
) -> Result<(), AllocError>
    ensures { OnOk result
        (elements.new ≡ elements.old ++ block_elements view.now look.now chart.now drawn.now) }
{
    let subject = shaped(alloc, chart.cell, drawn.rcid)?;
    for item in drawn.block.items.as_slice() {
        elements.push(item_element(alloc, view, look, chart.key, &subject, item)?)?;
    }
    Ok(())
}

/// Adds one element for each item of a chart's drawing, in the drawing's order. Where there is no memory, those of the
/// first items may have been added.
pub fn push_drawing(
    alloc: Global,
    elements: &mut ElementList,
    view: &View,
    look: &Look,
    chart: &Chart,
) -> Result<(), AllocError>
    ensures { OnOk result (elements.new ≡ elements.old ++ drawing_elements view.now look.now chart.now) }
{
    for drawn in chart.drawing.as_slice() {
        push_block(alloc, elements, view, look, chart, drawn)?;
    }
    Ok(())
}
