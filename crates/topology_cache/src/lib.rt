//! The users of each vector record of a chart: the features that point to it, found in one pass over the features,
//! and kept from chart to chart by the features that changed.
//!
//! A depth area's boundary is a safety contour where the area on the other side of it is unsafe, and an edge
//! doesn't name the areas that it bounds. So a drawing asks for the features that point to an edge, for many
//! edges.
#![tactic(auto)]

mod name_row;
mod name_set;
mod pair;
mod usage;
mod user_rows;
mod users;

pub use users::{Users, UsersMap, users_of};
