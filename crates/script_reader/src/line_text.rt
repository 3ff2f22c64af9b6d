//! The text of a line, put together word by word.
//!
//! All replies are made of these few steps, so that each word has exactly one space before it.

ghost use Rattle.std.specs.Prelude.{◌≡◌, ◌++◌, ◌∷◌, [], OnOk};
ghost use Rattle.script_reader.specs.Reply.{number};

use chart_model::Octets;
use std::alloc::{AllocError, Global};
use text_scan::write_number;

/// Adds a word behind a space.
pub fn push_word(line: &mut Octets, word: &[u8]) -> Result<(), AllocError>
    ensures { OnOk result (line.new ≡ line.old ++ 32 ∷ word.now) }
{
    line.extend_from_slice(b" ")?;
    line.extend_from_slice(word)
}

/// Adds a number behind a space.
pub fn push_number(alloc: Global, line: &mut Octets, n: u64) -> Result<(), AllocError>
    ensures { OnOk result (line.new ≡ line.old ++ 32 ∷ number n) }
{
    line.extend_from_slice(b" ")?;
    write_number(alloc, line, n as i128)
}

/// Ends a line.
pub fn end_line(line: &mut Octets) -> Result<(), AllocError>
    ensures { OnOk result (line.new ≡ line.old ++ 10 ∷ []) }
{
    line.extend_from_slice(b"\n")
}
