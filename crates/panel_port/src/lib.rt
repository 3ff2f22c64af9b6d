//! What a display panel is (`Panel`), and three kinds of panels.
//!
//! A panel shows blocks by their keys. It stands outside the kernel, so it is a trait with a written meaning, as a
//! source, a shelf and a desk are; panels are boxed, so that a session can have several kinds.
#![tactic(auto)]

mod block_map;
mod counting_panel;
mod error;
mod failing_panel;
mod memory_panel;
mod panel;
mod shown;
mod shown_blocks;
mod summary;
#[cfg(test)]
mod tests;

pub use block_map::BlockMap;
pub use counting_panel::CountingPanel;
pub use error::PanelError;
pub use failing_panel::FailingPanel;
pub use memory_panel::MemoryPanel;
pub use panel::Panel;
pub use shown_blocks::ShownBlocks;
pub use summary::Summary;
