//! The row CATD of a catalogue (S-57 Part 3, catalogue directory field).
//!
//! Its subfields are found once a file, in the file's own descriptor, and then read of each record. A descriptor
//! without one of them is a fault only where a record has the field: else there is nothing to read by it.

ghost use Rattle.std.specs.Prelude.{◌≡◌, ◌<◌, ◌^◌, ◌&&◌, is_some};
ghost use Rattle.std.specs.Option.{option_copied};
ghost use Rattle.s57_subfields.specs.Answers.{Gives};
ghost use Rattle.s57_subfields.specs.Columns.{once_at};

use crate::entry::Entry;
use crate::kinds::{FilePath, Implementation};
use iso8211_formats::Descriptor;
use s57_subfields::{FieldFault, Place, RowFields, Single, Subfield};
use std::alloc::Global;

/// The tag of the field.
pub(crate) const CATD: [u8; 4] = *b"CATD";

/// The label of the file's path.
const FILE: [u8; 4] = *b"FILE";

/// The label of the file's implementation: text or binary.
const IMPL: [u8; 4] = *b"IMPL";

/// The row as it stands in a file's descriptor. Of its subfields these two are looked at; in particular the check sum
/// (CRCS) isn't.
#[derive(Clone, Copy, Debug)]
pub(crate) struct CatdRow {
    pub(crate) file: Single<FilePath>,
    pub(crate) implementation: Single<Implementation>,
}

/// Whether the descriptor has the subfield, outside of a repeated group.
fn stands_once(subfield: &Subfield) -> bool
    ensures { result ≡ is_some (once_at subfield.now.place) }
{
    matches!(subfield.place, Place::Once(_))
}

impl CatdRow {
    ghost use Rattle.exchange_catalogue.specs.Entries.{catd_row, entry_in};

    /// Finds the subfields in the descriptor of the file's field. It takes no memory.
    pub(crate) fn find(descriptor: Option<&Descriptor>) -> CatdRow
        ensures { result ≡ catd_row (option_copied descriptor.entry) }
    {
        CatdRow {
            file: Single::find(descriptor, FILE, FilePath),
            implementation: Single::find(descriptor, IMPL, Implementation),
        }
    }

    /// Whether the descriptor has both subfields, outside of a repeated group.
    fn is_described(&self) -> bool
        ensures { result
            ≡ (is_some (once_at self.now.file.subfield.place)
            && is_some (once_at self.now.implementation.subfield.place)) }
    {
        stands_once(&self.file.subfield) && stands_once(&self.implementation.subfield)
    }

    /// Reads the entry of a data record.
    ///
    /// # Errors
    ///
    /// `MissingField` where the descriptor doesn't have one of the subfields, and else `Value` where one isn't a text;
    /// `NoMemory`.
    #[tactic(auto, unfolding(crate::specs::Entries::entry_in))]
    pub(crate) fn read(&self, alloc: Global, values: &RowFields<'_>) -> Result<Entry, FieldFault>
        requires { values.now.number < 2 ^ 32 }
        ensures { Gives result (entry_in self.now values.now) }
    {
        if !self.is_described() {
            return Err(values.missing_field());
        }
        let file = self.file.read(alloc, values)?;
        let binary = self.implementation.read(alloc, values)?;
        Ok(Entry {
            number: values.number() as u32,
            file,
            binary,
        })
    }
}
