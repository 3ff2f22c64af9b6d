//! Lines that ask: each is answered by what is held and by the file that it names, and changes nothing.

mod charts;
mod info;
mod route;

pub use charts::{draw_chart, list_cells};
pub use info::inform;
pub use route::{check_cover, check_route};
