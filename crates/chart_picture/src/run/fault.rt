//! What is wrong with files.
//!
//! The number and the values of a refusal are those that a line of a script is refused with, so that whoever knows the
//! one knows the other.

ghost use Rattle.std.specs.Prelude.{◌≡◌, IfOk};
ghost use Rattle.std.specs.List.{join_with_byte};
ghost use Rattle.chart_picture.specs.Fault.{code_of, place_of, values_of};

use chart_model::Octets;
use script_reader::Reply;
use session_core::LineRefusal;
use std::alloc::{AllocError, Global};
use std::fmt;

/// The number of the refusal of a file that isn't there.
const ABSENT: u8 = 71;

/// What is wrong with the object catalogue, the lookup table or the file of colours. Lines are counted from 1.
#[derive(Clone, Copy, Debug, PartialEq, Eq)]
pub enum TableFault {
    /// There is no file of the name.
    Absent,
    /// The file has more than 1,048,576 bytes.
    Long,
    /// The line of this number is the first with a fault.
    Line(u64),
}

/// The number of the line, or a word where there is nothing to read.
impl fmt::Display for TableFault {
    ghost use Rattle.std.specs.Prelude.{Some};
    ghost use Rattle.chart_picture.specs.Fault.{place_of};

    ghost output = { λ fault. Some (place_of fault) };

    fn fmt<W: fmt::Write>(&self, f: &mut fmt::Formatter<W>) -> fmt::Result {
        match self {
            TableFault::Absent => f.write_str("absent"),
            TableFault::Long => f.write_str("long"),
            TableFault::Line(line) => write!(f, "{line}"),
        }
    }
}

/// What is wrong with a cell file or with a route's file.
#[derive(Debug, Drop)]
pub enum FileFault {
    /// There is no file of the name.
    Absent,
    /// A line of a script that names such a file is refused so.
    Refused(LineRefusal),
}

impl FileFault {
    /// The number of the refusal, and what it names, of the file of this name.
    pub fn told(&self, alloc: Global, name: &Octets) -> Result<(u8, Octets), AllocError>
        ensures { IfOk result (λ told. (told.0 ≡ code_of self.now) × (told.1 ≡ values_of name.now self.now)) }
    {
        match self {
            FileFault::Absent => Ok((ABSENT, name.clone()?)),
            FileFault::Refused(refusal) => match refusal.reply(alloc)? {
                Reply::Refused(code, values) => Ok((code, values)),
                _ => unreachable!(),
            },
        }
    }
}
