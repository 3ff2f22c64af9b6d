//! The panels of a session, by their numbers.
//!
//! Each panel has a scene, and two counts tell of it what its replies told. A call touches one panel at most: the one
//! of the number that is given.
#![tactic(auto)]

mod fault;
mod panel_scene;
mod panel_scenes;

pub use fault::{PaintingFault, PanelRefusal};
pub use panel_scenes::{PanelScenes, new_scenes_are_in_step, refreshes_keep_step};
