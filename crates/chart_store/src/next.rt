//! What a command makes of its cell, before it is put in place.
//!
//! It is made whole before the command's record is written. Where that can't be kept this is let go again, and what is
//! held is as it was.

use chart_model::{Held, Holding, Key, NameList};

/// Whether the names whose records differ are worked out. An opening carries commands out for what they leave alone.
#[derive(Clone, Copy, Debug)]
pub(crate) enum Naming {
    Named,
    Unnamed,
}

/// What an accepted command makes of its cell. It is made aside, so that nothing that is held changes before it is
/// put in place.
#[derive(Debug, Drop)]
pub(crate) struct Next {
    /// The cell.
    pub key: Key,
    /// The numbers that are held of it then; where it is taken away, those that were.
    pub held: Held,
    /// What is held of it then: nothing where it is taken away.
    pub holding: Option<Holding>,
    /// The bytes of all live files then.
    pub bytes: u64,
    /// The names whose records differ, in order; none where they aren't worked out.
    pub changed: NameList,
}
