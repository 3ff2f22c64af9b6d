//! What holds of record files whatever reads them.
//!
//! Contracts cite functions that read bytes. Which file the bytes are, and which fault they have, is said in the
//! standard's words as relations; that the functions give these, and no others, is said here.

ghost use Rattle.std.specs.Prelude.{◌≡◌, ℕ, List, Ok, Err, length};
ghost use Rattle.iso8211_records.specs.declared.fault.FileFault.{FileFault as FaultOfFile};
ghost use Rattle.iso8211_records.specs.FileValue.{FileValue};
ghost use Rattle.iso8211_records.specs.RecordFile.{IsRecordFile, record_file_of, data_records_in};
ghost use Rattle.iso8211_records.specs.Fault.{HasFault};

use iso8211_formats::reading_is_spelling;

/// `record_file_of` gives a file that the bytes are, and each.
pub fn reads_each()
    ensures given { (tags : List (List ℕ)) (bytes : List ℕ) (file : FileValue) → record_file_of tags bytes ≡ Ok file
        → IsRecordFile tags bytes file }
    ensures each { (tags : List (List ℕ)) (bytes : List ℕ) (file : FileValue) → IsRecordFile tags bytes file
        → record_file_of tags bytes ≡ Ok file }
    ensures counted { (tags : List (List ℕ)) (bytes : List ℕ) (file : FileValue) → record_file_of tags bytes ≡ Ok file
        → data_records_in tags bytes ≡ length file.records }
{
    reading_is_spelling();
}

/// `record_file_of` gives the first fault of the bytes, and each.
pub fn faults_each()
    ensures given { (tags : List (List ℕ)) (bytes : List ℕ) (fault : FaultOfFile)
        → record_file_of tags bytes ≡ Err fault → HasFault tags bytes (data_records_in tags bytes) fault }
    ensures each { (tags : List (List ℕ)) (bytes : List ℕ) (number : ℕ) (fault : FaultOfFile)
        → HasFault tags bytes number fault → (record_file_of tags bytes ≡ Err fault)
        × (data_records_in tags bytes ≡ number) }
{
    reading_is_spelling();
}

/// Bytes are one record file at most.
pub fn one_reading()
    ensures { (tags : List (List ℕ)) (bytes : List ℕ) (file other : FileValue) → IsRecordFile tags bytes file
        → IsRecordFile tags bytes other → file ≡ other }
{
    reads_each();
}

/// Bytes have one first fault at most, and come to one number of data records.
pub fn one_fault()
    ensures { (tags : List (List ℕ)) (bytes : List ℕ) (number count : ℕ) (fault other : FaultOfFile)
        → HasFault tags bytes number fault → HasFault tags bytes count other → (number ≡ count) × (fault ≡ other) }
{
    faults_each();
}

/// A file that bytes are has no fault.
pub fn never_both()
    ensures { (tags : List (List ℕ)) (bytes : List ℕ) (file : FileValue) (number : ℕ) (fault : FaultOfFile)
        → IsRecordFile tags bytes file → HasFault tags bytes number fault → ⊥ }
{
    reads_each();
    faults_each();
}
