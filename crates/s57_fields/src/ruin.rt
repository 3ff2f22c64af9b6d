//! The update instruction of a record.
//!
//! VRID and FRID have it alike.

ghost use Rattle.s57_subfields.specs.Answers.{Gives};
ghost use Rattle.s57_subfields.specs.Columns.{once_in};
ghost use Rattle.s57_subfields.specs.Number.{number_up_to, ONE_BYTE};
ghost use Rattle.s57_fields.specs.Ruin.{ruin_in};

use s57_subfields::{FieldFault, OneByte, RowFields, Single};
use std::alloc::Global;

/// The update instruction, which is looked at in updates alone.
pub(crate) fn read_ruin(
    ruin: &Single<OneByte>,
    alloc: Global,
    values: &RowFields<'_>,
    update: bool,
) -> Result<u8, FieldFault>
    ensures { Gives result (ruin_in update (once_in (number_up_to ONE_BYTE) values.now ruin.now.subfield)) }
{
    if update {
        ruin.read(alloc, values)
    } else {
        Ok(0)
    }
}
