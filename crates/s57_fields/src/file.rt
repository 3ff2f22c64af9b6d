//! The fields of a file's data records, by the number of the record.
//!
//! A data record is told by its number in contracts and in faults alike. A number that a file doesn't have gives a
//! record without fields, so that reading one answers as for any record that lacks them.

ghost use Rattle.std.specs.Prelude.{◌≡◌};
ghost use Rattle.s57_fields.specs.Files.{record_at};

use iso8211_records::{RawField, RecordFile};

/// The fields of the data record of this number, from 1; none where there is no such record.
pub(crate) fn record_at(file: &RecordFile, number: usize) -> &[RawField]
    ensures { result.now ≡ record_at file.now number }
{
    if number == 0 {
        return &[];
    }
    match file.records.as_slice().get(number - 1) {
        Some(record) => record.as_slice(),
        None => &[],
    }
}
