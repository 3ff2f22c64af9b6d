//! The names of cell files (S-57 Appendix B.1).
//!
//! A name tells which cell a file is of, and by three digits whether it is the base file (000) or which update.

ghost use Rattle.std.specs.Prelude.{◌≡◌};
ghost use Rattle.exchange_catalogue.specs.CellNames.{cell_name_of};

use std::marker::Model;
use text_scan::read_number;

/// How many bytes a dot and three digits are.
const ENDING: usize = 4;

/// The name of a cell file.
#[derive(Drop)]
pub(crate) struct CellName<'a> {
    /// The bytes before the last dot, at least one.
    pub(crate) stem: &'a [u8],
    /// The number of the three digits behind it.
    pub(crate) number: u64,
}

impl<'a> Model for CellName<'a> {
    ghost use Rattle.exchange_catalogue.specs.CellNames.{CellNameValue};

    ghost Value = { CellNameValue };

    ghost view = { λ name. record { stem = name.stem.now; number = name.number } };
}

/// The cell file that a name is, where it is one: a name that ends with a dot and three digits, with at least one byte
/// before the dot. It takes no memory.
#[tactic(auto, unfolding(crate::specs::CellNames::cell_name_of))]
pub(crate) fn read_cell_name(name: &[u8]) -> Option<CellName<'_>>
    ensures { result ≡ cell_name_of name.now }
{
    if name.len() <= ENDING {
        return None;
    }
    let (stem, ending) = name.split_at(name.len() - ENDING);
    if ending[0] != b'.' {
        return None;
    }
    match read_number(&ending[1..]) {
        Some(number) => Some(CellName { stem, number }),
        None => None,
    }
}
