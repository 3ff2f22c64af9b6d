//! How many bytes of fields are read of a file.
//!
//! Fields may overlap, so that a small file can name more bytes than there is memory for. The fields of
//! a file without overlaps are never over the budget: in all they are shorter than the file.

ghost use Rattle.std.specs.Prelude.{◌≡◌, ◌+◌, ◌<◌, max, OnOk, OnErr};

use std::alloc::AllocError;
use std::marker::Model;

/// So many bytes of fields are read of any file, as many as the longest file that is loaded has.
const LEAST: usize = 8_388_608;

/// How many more bytes of fields are read of a file. Contracts see the number.
#[derive(Debug, Drop)]
pub(crate) struct Budget {
    left: usize,
}

impl Model for Budget {
    ghost use Rattle.std.specs.Prelude.{ℕ};

    ghost Value = { ℕ };

    ghost view = { λ budget. budget.left };
}

impl Budget {
    /// The budget of a file of so many bytes: as many, or [`LEAST`] where that is more.
    pub(crate) fn of_file(length: usize) -> Budget
        ensures { result ≡ max length 8388608 }
    {
        Budget {
            left: length.max(LEAST),
        }
    }

    /// Takes so many bytes.
    ///
    /// # Errors
    ///
    /// `AllocError` exactly where fewer are left, and then none is taken.
    pub(crate) fn take(&mut self, count: usize) -> Result<(), AllocError>
        ensures ok { OnOk result (self.new + count ≡ self.old) }
        ensures err { OnErr result ((self.old < count) × (self.new ≡ self.old)) }
    {
        match self.left.checked_sub(count) {
            Some(left) => {
                self.left = left;
                Ok(())
            }
            None => Err(AllocError),
        }
    }
}
