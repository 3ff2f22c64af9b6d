//! The line `draw`.
//!
//! The users of the chart's edges come with it, so no drawing begins with a pass over the features to find them.

ghost use Rattle.std.specs.Prelude.{◌≡◌, IfOk};
ghost use Rattle.session_lists.specs.Draw.{draw_reply};
ghost use Rattle.topology_cache.specs.Users.{AreUsersOf};

use chart_model::{Cell, Key, Settings};
use draw_list::{draw_cell, print_drawing};
use lookup_table::Table;
use script_reader::Reply;
use std::alloc::{AllocError, Global};
use topology_cache::Users;

/// The reply of `draw` for the cell of this key, whose chart this is: the number of the instructions of its drawing, and
/// a line for each, in its order.
pub fn draw_reply(
    alloc: Global,
    key: Key,
    chart: &Cell,
    users: &Users,
    table: &Table,
    settings: &Settings,
) -> Result<Reply, AllocError>
    requires { AreUsersOf chart.now users.now }
    ensures { IfOk result (λ reply. reply ≡ draw_reply table.now settings.now key chart.now) }
{
    let drawing = draw_cell(alloc, chart, users, table, settings)?;
    let (count, lines) = print_drawing(alloc, &drawing)?;
    Ok(Reply::Draw(key, count, lines))
}
