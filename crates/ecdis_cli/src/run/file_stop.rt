//! Why the catalogue or the table is not taken.
//!
//! Both files are fetched and read in the same way, so the faults of their readers are one type here; `Status` adds
//! which file it was. A shelf that fails and want of memory stand apart, since neither says anything of the file.

ghost use Rattle.std.specs.Prelude.{◌≡◌};

use crate::run::tables_fault::TablesFault;
use chart_ports::ShelfError;
use lookup_table::TableFault;
use object_catalogue::CatalogueFault;

/// Why the catalogue or the table is not taken. The run ends there.
#[derive(Clone, Copy, Debug, PartialEq, Eq)]
pub enum FileStop {
    /// It is absent, long, or has a fault.
    Fault(TablesFault),
    /// The shelf failed.
    ShelfFault,
    /// There was no memory.
    NoMemory,
}

impl From<ShelfError> for FileStop {
    ghost use Rattle.ecdis_cli.specs.FileStop.{stop_of_shelf};

    ghost from_gives = { λ error stop. stop ≡ stop_of_shelf error };

    fn from(error: ShelfError) -> FileStop {
        match error {
            ShelfError::Failed => FileStop::ShelfFault,
            ShelfError::NoMemory => FileStop::NoMemory,
        }
    }
}

impl From<CatalogueFault> for FileStop {
    ghost use Rattle.ecdis_cli.specs.FileStop.{stop_of};
    ghost use Rattle.ecdis_cli.specs.Tables.{fault_of_catalogue};

    ghost from_gives = { λ fault stop. stop ≡ stop_of (fault_of_catalogue fault) };

    fn from(fault: CatalogueFault) -> FileStop {
        match fault {
            CatalogueFault::BadLine(line) => FileStop::Fault(TablesFault::BadLine(line)),
            CatalogueFault::Twice(line) => FileStop::Fault(TablesFault::Twice(line)),
            CatalogueFault::NoMemory => FileStop::NoMemory,
        }
    }
}

impl From<TableFault> for FileStop {
    ghost use Rattle.ecdis_cli.specs.FileStop.{stop_of};
    ghost use Rattle.ecdis_cli.specs.Tables.{fault_of_table};

    ghost from_gives = { λ fault stop. stop ≡ stop_of (fault_of_table fault) };

    fn from(fault: TableFault) -> FileStop {
        match fault {
            TableFault::BadLine(line) => FileStop::Fault(TablesFault::BadLine(line)),
            TableFault::UnknownName(line) => FileStop::Fault(TablesFault::UnknownName(line)),
            TableFault::UnknownProcedure(line) => {
                FileStop::Fault(TablesFault::UnknownProcedure(line))
            }
            TableFault::NoMemory => FileStop::NoMemory,
        }
    }
}
