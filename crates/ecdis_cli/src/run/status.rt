//! How a run ends.
//!
//! Each end is a number, the program's exit status, and a line for standard error. A line that is refused is no end:
//! its reply says so, and the run goes on.

ghost use Rattle.std.specs.Prelude.{◌≡◌};
ghost use Rattle.ecdis_cli.specs.FileStop.{status_of_file};
ghost use Rattle.ecdis_cli.specs.Status.{exit_code};
ghost use Rattle.ecdis_cli.specs.Stop.{status_of, status_of_opening};

use crate::run::file_stop::FileStop;
use crate::run::stop::Stop;
use crate::run::tables_fault::TablesFault;
use chart_store::OpenFault;
use std::fmt;

/// How a run ends.
#[derive(Clone, Copy, Debug, PartialEq, Eq)]
pub enum Status {
    /// The script was read to its end and every reply was said.
    Done,
    /// The words are not those of the program.
    Words,
    /// The file of this number, 0 for the object catalogue and 1 for the lookup table, has this fault.
    Tables(u8, TablesFault),
    /// The files of the store are none: their first fault is in the file of this number, at this place, counted from 0.
    Foreign(u8, u64),
    /// The script could not be read on.
    ScriptFault,
    /// The script has more than 16,777,216 bytes.
    ScriptLong,
    /// The disk failed, or a reply could not be said.
    DeskFault,
    /// There was no memory.
    NoMemory,
    /// The shelf failed while the catalogue or the table was fetched.
    ShelfFault,
}

impl Status {
    /// How the run ends in which a line was not answered.
    pub fn after(stop: Stop) -> Status
        ensures { result ≡ status_of stop }
    {
        match stop {
            Stop::DeskFault => Status::DeskFault,
            Stop::NoMemory => Status::NoMemory,
        }
    }

    /// How the run ends whose catalogue, or table, is not taken: the file of this number, 0 or 1.
    pub fn of_file(which: u8, stop: FileStop) -> Status
        ensures { result ≡ status_of_file which stop }
    {
        match stop {
            FileStop::Fault(fault) => Status::Tables(which, fault),
            FileStop::ShelfFault => Status::ShelfFault,
            FileStop::NoMemory => Status::NoMemory,
        }
    }

    /// How the run ends whose store is not opened.
    pub fn of_opening(fault: OpenFault) -> Status
        ensures { result ≡ status_of_opening fault }
    {
        match fault {
            OpenFault::DeskFault => Status::DeskFault,
            OpenFault::Foreign(bank, at) => Status::Foreign(bank, at),
            OpenFault::NoMemory => Status::NoMemory,
        }
    }

    /// The number with which the program ends.
    pub fn number(self) -> u8
        ensures { result ≡ exit_code self }
    {
        match self {
            Status::Done => 0,
            Status::Words => 1,
            Status::Tables(..) => 2,
            Status::Foreign(..) => 3,
            Status::ScriptFault => 4,
            Status::ScriptLong => 5,
            Status::DeskFault => 6,
            Status::NoMemory => 7,
            Status::ShelfFault => 8,
        }
    }
}

/// The line for standard error, without its end. It is empty where the run was done.
impl fmt::Display for Status {
    ghost use Rattle.std.specs.Prelude.{Some};
    ghost use Rattle.ecdis_cli.specs.Status.{line_of};

    ghost output = { λ status. Some (line_of status) };

    fn fmt<W: fmt::Write>(&self, f: &mut fmt::Formatter<W>) -> fmt::Result {
        match self {
            Status::Done => f.write_str(""),
            Status::Words => f.write_str("ecdis: words"),
            Status::Tables(which, fault) => write!(f, "ecdis: tables {which} {fault}"),
            Status::Foreign(bank, at) => write!(f, "ecdis: foreign {bank} {at}"),
            Status::ScriptFault => f.write_str("ecdis: script fault"),
            Status::ScriptLong => f.write_str("ecdis: script long"),
            Status::DeskFault => f.write_str("ecdis: desk fault"),
            Status::NoMemory => f.write_str("ecdis: no memory"),
            Status::ShelfFault => f.write_str("ecdis: shelf fault"),
        }
    }
}
