//! A whole document of SVG 1.1.

ghost use Rattle.std.specs.Prelude.{◌≡◌, ◌++◌, IfOk, OnOk};
ghost use Rattle.chart_svg.specs.Document.{opening, preface, head_text, document_text};

use crate::element::ElementList;
use crate::spelling::push_element;
use crate::view::View;
use chart_model::Octets;
use std::alloc::{AllocError, Global};
use text_scan::write_number;

/// Adds what a document is.
fn push_opening(out: &mut Octets) -> Result<(), AllocError>
    ensures { OnOk result (out.new ≡ out.old ++ opening) }
{
    out.extend_from_slice(b"<?xml version=\"1.0\" encoding=\"UTF-8\"?>\n")?;
    out.extend_from_slice(
        b"<svg xmlns=\"http://www.w3.org/2000/svg\" version=\"1.1\" fill=\"none\" viewBox=\"0 0 ",
    )
}

/// Adds that a document isn't for navigation, and the pattern that its elements may use.
fn push_preface(out: &mut Octets) -> Result<(), AllocError>
    ensures { OnOk result (out.new ≡ out.old ++ preface) }
{
    out.extend_from_slice(b"\">\n<title>Not for navigation</title>\n")?;
    out.extend_from_slice(
        b"<defs><pattern id=\"hatching\" width=\"8\" height=\"8\" patternUnits=\"userSpaceOnUse\">",
    )?;
    out.extend_from_slice(b"<path d=\"M0,8L8,0\" stroke=\"gray\"/></pattern></defs>\n")
}

/// Adds the head of a document.
#[tactic(auto, unfolding(crate::specs::Document::head_text))]
fn push_head(alloc: Global, out: &mut Octets, view: &View) -> Result<(), AllocError>
    ensures { OnOk result (out.new ≡ out.old ++ head_text view.now) }
{
    push_opening(out)?;
    write_number(alloc, out, i128::from(view.width))?;
    out.extend_from_slice(b" ")?;
    write_number(alloc, out, i128::from(view.height()))?;
    push_preface(out)
}

/// The document of a picture's elements, in SVG 1.1: its view box is as wide and as high as the view, and each element
/// is a path on a line of its own, in their order.
pub fn print_document(
    alloc: Global,
    view: &View,
    elements: &ElementList,
) -> Result<Octets, AllocError>
    ensures { IfOk result (λ document. document ≡ document_text view.now elements.now) }
{
    let mut out = Octets::from_vec(Vec::new(alloc));
    push_head(alloc, &mut out, view)?;
    for element in elements.as_slice() {
        push_element(alloc, &mut out, element)?;
    }
    out.extend_from_slice(b"</svg>\n")?;
    Ok(out)
}
