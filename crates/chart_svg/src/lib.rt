//! A chart's drawing as a picture: elements of SVG 1.1, and the document that they are.
//!
//! The elements come first, as plain values: each item of a drawing is one, in the drawing's order, and so are each leg
//! of a route and each danger along it. An element knows where it comes from (the cell, the feature's number, the
//! instruction) and what is drawn, in whole units of the picture; the document spells this.
//!
//! What colours and symbols look like is handed in. A colour that isn't handed in is magenta, so that nobody misses it,
//! and an instruction without a symbol is a small box with its text as a title. Pictures are not for navigation.
#![tactic(auto)]

mod chart;
mod dangers;
mod document;
mod element;
mod escape;
mod figure;
mod instruction;
mod laws;
mod legs;
mod look;
mod outline;
mod places;
mod spelling;
mod subject;
mod view;
mod voyage;

pub use chart::Chart;
pub use document::print_document;
pub use element::{Element, ElementList, Origin, push_drawing};
pub use figure::{Dash, Figure, Fill, Pen, SpotLines, SpotList};
pub use laws::{corners_are_corners, escaped_text_is_quiet};
pub use look::Look;
pub use view::{Spot, View};
pub use voyage::{Voyage, elements_of};
