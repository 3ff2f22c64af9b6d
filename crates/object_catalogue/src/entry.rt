//! One entry of a catalogue.
//!
//! It is the grammar of a line alone, without the entries before it.

ghost use Rattle.std.specs.Prelude.{◌≡◌};
ghost use Rattle.object_catalogue.specs.Entry.{kind_of, code_of, entry_with, entry_of};
ghost use Rattle.object_catalogue.specs.Acronym.{acronym_of};

use crate::acronym::{Acronym, read_acronym};
use text_lines::{Words, read_words};
use text_scan::read_number;

/// What an entry of a catalogue names.
#[derive(Clone, Copy, Debug, PartialEq, Eq)]
pub enum Kind {
    /// An object class.
    Class,
    /// An attribute.
    Attribute,
}

/// The code and the acronym of an object class or an attribute.
#[derive(Clone, Copy, Debug, PartialEq, Eq)]
pub struct Entry {
    pub kind: Kind,
    /// The code in OBJL or ATTL: 1 to 65,535 (S-57 Appendix A).
    pub code: u16,
    pub acronym: Acronym,
}

/// What a word tells of the kind.
fn read_kind(word: &[u8]) -> Option<Kind>
    ensures { result ≡ kind_of word.now }
{
    if word == b"O".as_slice() {
        Some(Kind::Class)
    } else if word == b"A".as_slice() {
        Some(Kind::Attribute)
    } else {
        None
    }
}

/// The code that digits write: 1 to 65,535.
fn read_code(digits: &[u8]) -> Option<u16>
    ensures { result ≡ code_of digits.now }
{
    match read_number(digits) {
        Some(number @ 1..=65_535) => Some(number as u16),
        _ => None,
    }
}

/// The entry of three words.
fn read_parts(word: &[u8], digits: &[u8], acronym: &[u8]) -> Option<Entry>
    ensures { result ≡ entry_with (kind_of word.now) (code_of digits.now) (acronym_of acronym.now) }
{
    let kind = read_kind(word)?;
    let code = read_code(digits)?;
    let acronym = read_acronym(acronym)?;
    Some(Entry {
        kind,
        code,
        acronym,
    })
}

/// The entry that a line is. It takes no memory.
#[tactic(auto, unfolding(crate::specs::Entry::entry_in))]
pub fn read_entry(line: &[u8]) -> Option<Entry>
    ensures { result ≡ entry_of line.now }
{
    match read_words(line) {
        Words::Three(word, digits, acronym) => read_parts(word, digits, acronym),
        _ => None,
    }
}
