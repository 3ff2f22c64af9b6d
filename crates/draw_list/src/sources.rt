//! What a drawing is made from.
//!
//! They are lent together, with the fact that the users are those of the cell, which no function need ask again.

ghost use Rattle.topology_cache.specs.Users.{AreUsersOf};

use chart_model::{Cell, Settings};
use lookup_table::Table;
use topology_cache::Users;

/// What a drawing is made from.
#[derive(Clone, Copy)]
pub struct Sources<'a> {
    pub cell: &'a Cell,
    /// The users of the cell's edges.
    pub users: &'a Users,
    pub table: &'a Table,
    pub settings: &'a Settings,
    pub ghost are_users: { AreUsersOf cell.now users.now },
}
