//! What is wrong with a catalogue or a table.
//!
//! Of a line with a fault the number alone is printed, which leads to the line; that a file is absent or too long is
//! printed as a word. Which rule the line breaks is told to callers, by the variant.

use std::fmt;

/// What is wrong with the file of the object catalogue or of the lookup table. Lines are counted from 1.
#[derive(Clone, Copy, Debug, PartialEq, Eq)]
pub enum TablesFault {
    /// There is no file of the name.
    Absent,
    /// The file has more than 1,048,576 bytes.
    Long,
    /// The line of this number is none of a catalogue or of a table, or stands behind the 10,000th.
    BadLine(u64),
    /// The code or the acronym on the line of this number stands before it in the catalogue.
    Twice(u64),
    /// A name on the line of this number isn't in the catalogue.
    UnknownName(u64),
    /// A procedure on the line of this number isn't one of those that there are.
    UnknownProcedure(u64),
}

/// The number of the line, or a word where there is nothing to read.
impl fmt::Display for TablesFault {
    ghost use Rattle.std.specs.Prelude.{Some};
    ghost use Rattle.ecdis_cli.specs.TablesFault.{place_of};

    ghost output = { λ fault. Some (place_of fault) };

    fn fmt<W: fmt::Write>(&self, f: &mut fmt::Formatter<W>) -> fmt::Result {
        match self {
            TablesFault::Absent => f.write_str("absent"),
            TablesFault::Long => f.write_str("long"),
            TablesFault::BadLine(line) => write!(f, "{line}"),
            TablesFault::Twice(line) => write!(f, "{line}"),
            TablesFault::UnknownName(line) => write!(f, "{line}"),
            TablesFault::UnknownProcedure(line) => write!(f, "{line}"),
        }
    }
}
