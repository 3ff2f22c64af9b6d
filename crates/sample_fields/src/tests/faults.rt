//! What a fault of a file, and what a fault of a field says.
//!
//! These lines are read beside the bytes of a file, so each says a byte, a record, a tag or a label. A tag of a file
//! may have any bytes, and those that can't be shown are escaped.

use iso8211_records::FileFault;
use s57_subfields::FieldFault;
use std::test::Fail;

/// Faults, and what they say.
static SAID: [(FileFault, &str); 7] = [
    (
        FileFault::Leader(0),
        "no leader of a record begins at byte 0",
    ),
    (
        FileFault::Directory(24),
        "no entry of a directory, and no end of it, stands at byte 24",
    ),
    (
        FileFault::Span(38),
        "the record at byte 38, or the field that is named there, passes its end",
    ),
    (
        FileFault::Terminator(52),
        "the field that is named at byte 52 does not end with a field terminator",
    ),
    (
        FileFault::Descriptor(*b"VRID"),
        "the data descriptive record describes no field VRID",
    ),
    (
        FileFault::Subfield(3, *b"SG\x1ED"),
        "the field SG\\x1eD of data record 3 is not as it is described",
    ),
    (FileFault::NoMemory, "there was no memory for the records"),
];

/// Faults of fields, and what they say.
static SAID_OF_FIELDS: [(FieldFault, &str); 3] = [
    (
        FieldFault::MissingField {
            record: 2,
            tag: *b"VRPT",
        },
        "data record 2: the field VRPT or a subfield of it is missing",
    ),
    (
        FieldFault::Value {
            record: 14,
            label: *b"YC\x1EO",
        },
        "data record 14: the value of YC\\x1eO is not one that is read",
    ),
    (FieldFault::NoMemory, "there was no memory for the values"),
];

#[test]
fn a_fault_says_what_is_wrong_and_where(rt: HostRuntime) -> Result<(), Fail> {
    for (at, (fault, said)) in SAID.iter().enumerate() {
        let text = format!(in rt.alloc(); "{fault}")?;
        assert!(rt; text.as_str() == *said, "case {at}");
    }
    Ok(())
}

#[test]
fn a_fault_of_a_field_says_what_is_wrong_and_where(rt: HostRuntime) -> Result<(), Fail> {
    for (at, (fault, said)) in SAID_OF_FIELDS.iter().enumerate() {
        let text = format!(in rt.alloc(); "{fault}")?;
        assert!(rt; text.as_str() == *said, "case {at}");
    }
    Ok(())
}
