//! Lines that change charts: each stands for one command, and is replied to once that is accepted.
//!
//! What a line orders is found before the store is called, so a refusal of the line leaves the disk alone.

mod load;
mod order;
mod written;

pub use load::load_order;
pub use order::{Order, Success, drop_order, rollback_order};
pub use written::{make_order, reissue_order};
