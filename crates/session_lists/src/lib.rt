//! The replies of the lines that list what is held: `cells`, `draw`, `route` and `cover`.
//!
//! Each is a function of the charts that are held and of the bytes that the line comes with. Which line has which file,
//! and what is refused where there is no such file or cell, is no part of it: so these replies stand apart from the
//! store and from the session, whose lines they are.
#![tactic(auto)]

mod cells;
mod cover;
mod draw;
mod route;

pub use cells::cells_reply;
pub use cover::cover_reply;
pub use draw::draw_reply;
pub use route::route_reply;
