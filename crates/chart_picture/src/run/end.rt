//! How a run ends.
//!
//! Each end is a number, the program's exit status, and a line for standard error. A picture is said whole or, where
//! the run ends otherwise, not at all; only standard output itself may fail in its midst.

ghost use Rattle.std.specs.Prelude.{◌≡◌, IfOk};
ghost use Rattle.chart_picture.specs.End.{exit_code, line_of};
ghost use Rattle.chart_picture.specs.declared.run.end.End.TheVariants.{NoMemory};

use crate::run::fault::{FileFault, TableFault};
use crate::run::line::{refused_line, table_line};
use chart_model::Octets;
use chart_ports::ShelfError;
use std::alloc::{AllocError, AllocFailed, Global};

/// Which of the files a cell file or a route's file is.
#[derive(Clone, Copy, Debug, PartialEq, Eq)]
pub enum Place {
    /// The cell file of this number, counted from 1 in the order of the words.
    Cell(u64),
    /// The route's file.
    Route,
}

/// How a run ends.
#[derive(Debug, Drop)]
pub enum End {
    /// The picture was said, or the help or the version that was asked for.
    Done,
    /// The words are not those of the program.
    Words,
    /// The file of this number, 0 for the object catalogue, 1 for the lookup table and 2 for the colours, has this
    /// fault.
    Tables(u8, TableFault),
    /// The file at this place and of this name has this fault.
    File(Place, Octets, FileFault),
    /// Standard output failed.
    OutputFault,
    /// There was no memory.
    NoMemory,
    /// The shelf failed.
    ShelfFault,
}

impl From<AllocError> for End {
    ghost from_gives = { λ _ end. end ≡ NoMemory };

    fn from(_: AllocError) -> End {
        End::NoMemory
    }
}

impl<T: Drop> From<AllocFailed<T>> for End {
    ghost from_gives = { λ _ end. end ≡ NoMemory };

    fn from(_: AllocFailed<T>) -> End {
        End::NoMemory
    }
}

impl From<ShelfError> for End {
    ghost use Rattle.chart_picture.specs.End.{end_of_shelf};

    ghost from_gives = { λ error end. end ≡ end_of_shelf error };

    fn from(error: ShelfError) -> End {
        match error {
            ShelfError::Failed => End::ShelfFault,
            ShelfError::NoMemory => End::NoMemory,
        }
    }
}

impl End {
    /// The number with which the program ends.
    pub fn number(&self) -> u8
        ensures { result ≡ exit_code self.now }
    {
        match self {
            End::Done => 0,
            End::Words => 1,
            End::Tables(..) => 2,
            End::File(Place::Cell(_), ..) => 3,
            End::File(Place::Route, ..) => 4,
            End::OutputFault => 6,
            End::NoMemory => 7,
            End::ShelfFault => 8,
        }
    }

    /// The line for standard error, without its end. It is empty where the run was done.
    pub fn line(&self, alloc: Global) -> Result<Octets, AllocError>
        ensures { IfOk result (λ line. line ≡ line_of self.now) }
    {
        match self {
            End::Done => Ok(Octets::from_vec(Vec::new(alloc))),
            End::Words => Octets::from_slice(alloc, b"chart_picture: words"),
            End::Tables(which, fault) => table_line(alloc, *which, *fault),
            End::File(place, name, fault) => refused_line(alloc, *place, name, fault),
            End::OutputFault => Octets::from_slice(alloc, b"chart_picture: output fault"),
            End::NoMemory => Octets::from_slice(alloc, b"chart_picture: no memory"),
            End::ShelfFault => Octets::from_slice(alloc, b"chart_picture: shelf fault"),
        }
    }
}
