//! Fields that are not read.
//!
//! Which fault of a list is told goes by the order of the standard's row, whatever order the file has. So labels stand
//! in other orders here, and some files have two faults, of which the first of the row has to be told.

use super::read;
use iso8211_records::{FileFault, RecordFile};
use s57_fields::{
    read_attf, read_attv, read_ffpt, read_fspt, read_sg2d, read_sg3d, read_vrpc, read_vrpt,
};
use s57_subfields::FieldFault;
use s57_subfields::labels::{ATTL, ATVL, MASK, NAME, RIND, VE3D, XCOO, YCOO};
use s57_subfields::tags::{ATTF, ATTV, FFPT, FSPT, SG2D, SG3D, VRPC, VRPT};
use std::alloc::Global;
use std::test::Fail;

#[test]
fn text_without_its_terminator(rt: HostRuntime) -> Result<(), Fail> {
    let bytes = b"00061 L   0900032   21 4ATTV290\x1e\
        0000;&   \x1f*ATTL!ATVL\x1f(b12,A)\x1e\
        00035 D     00031   11 4ATTV40\x1e\
        \x92\x014\x1e";
    let unread = FileFault::Subfield(1, ATTV);
    assert_eq!(rt; read(rt.alloc(), bytes, ATTV).err(), Some(unread));
    Ok(())
}

#[test]
fn text_with_a_terminator_inside(rt: HostRuntime) -> Result<(), Fail> {
    let bytes = b"00064 L   0900032   21 4ATTV320\x1e\
        0000;&   \x1f*ATTL!ATVL\x1f(b12,A(2))\x1e\
        00036 D     00031   11 4ATTV50\x1e\
        \x92\x014\x1f\x1e";
    let bad = FieldFault::Value {
        record: 1,
        label: ATVL,
    };
    let file = read(rt.alloc(), bytes, ATTV)?;
    assert_eq!(rt; read_attv(rt.alloc(), &file, 1).err(), Some(bad));
    Ok(())
}

#[test]
fn latitude_beyond_the_pole(rt: HostRuntime) -> Result<(), Fail> {
    // The latitude is 900,000,001.
    let bytes = b"00060 L   0900032   21 4SG2D280\x1e\
        0000;&   \x1f*YCOO!XCOO\x1f(2b24)\x1e\
        00040 D     00031   11 4SG2D90\x1e\
        \x01\xe9\xa45\0\0\0\0\x1e";
    let bad = FieldFault::Value {
        record: 1,
        label: YCOO,
    };
    let file = read(rt.alloc(), bytes, SG2D)?;
    assert_eq!(rt; read_sg2d(rt.alloc(), &file, 1).err(), Some(bad));
    Ok(())
}

#[test]
fn label_that_is_not_described(rt: HostRuntime) -> Result<(), Fail> {
    let bytes = b"00068 L   0900032   21 4VRPC360\x1e\
        0000;&   \x1fVPUI!VPIX!XXXX\x1f(b11,2b12)\x1e\
        00037 D     00031   11 4VRPC60\x1e\
        \x01\x01\0\x01\0\x1e";
    let missing = FieldFault::MissingField {
        record: 1,
        tag: VRPC,
    };
    let file = read(rt.alloc(), bytes, VRPC)?;
    assert_eq!(rt; read_vrpc(rt.alloc(), &file, 1).err(), Some(missing));
    Ok(())
}

/// The tag of a list, a file with such a field, and why the list isn't read.
type Unread = ([u8; 4], &'static [u8], FieldFault);

/// Labels that don't stand in the order of the standard's row, or are missing.
static LISTS: [Unread; 12] = [
    // a later group has a bad latitude, and an earlier one a bad longitude
    (
        SG2D,
        b"00060 L   0900032   21 4SG2D280\x1e\
            0000;&   \x1f*XCOO!YCOO\x1f(2b24)\x1e\
            00049 D     00032   21 4SG2D170\x1e\
            \x01\xd2Ik\0\0\0\0\
            \0\0\0\0\x01\xe9\xa45\
            \x1e",
        FieldFault::Value {
            record: 1,
            label: YCOO,
        },
    ),
    (
        SG2D,
        b"00060 L   0900032   21 4SG2D280\x1e\
            0000;&   \x1f*XCOO!YCOO\x1f(2b24)\x1e\
            00049 D     00032   21 4SG2D170\x1e\
            \x01\0\0\0\x02\0\0\0\
            \xff-\xb6\x94\0\0\0\0\
            \x1e",
        FieldFault::Value {
            record: 1,
            label: XCOO,
        },
    ),
    // the label that is missing comes first in the row
    (
        SG2D,
        b"00060 L   0900032   21 4SG2D280\x1e\
            0000;&   \x1f*XCOO!LATI\x1f(2b24)\x1e\
            00041 D     00032   21 4SG2D090\x1e\
            \x01\xd2Ik\0\0\0\0\
            \x1e",
        FieldFault::MissingField {
            record: 1,
            tag: SG2D,
        },
    ),
    // the bad value does
    (
        SG2D,
        b"00060 L   0900032   21 4SG2D280\x1e\
            0000;&   \x1f*YCOO!LONG\x1f(2b24)\x1e\
            00041 D     00032   21 4SG2D090\x1e\
            \x01\xe9\xa45\0\0\0\0\
            \x1e",
        FieldFault::Value {
            record: 1,
            label: YCOO,
        },
    ),
    // without a group
    (
        SG2D,
        b"00060 L   0900032   21 4SG2D280\x1e\
            0000;&   \x1f*YCOO!LONG\x1f(2b24)\x1e\
            00033 D     00032   21 4SG2D010\x1e\
            \x1e",
        FieldFault::MissingField {
            record: 1,
            tag: SG2D,
        },
    ),
    // a label stands once
    (
        SG2D,
        b"00060 L   0900032   21 4SG2D280\x1e\
            0000;&   \x1fYCOO!*XCOO\x1f(2b24)\x1e\
            00041 D     00032   21 4SG2D090\x1e\
            \x01\0\0\0\
            \x02\0\0\0\
            \x1e",
        FieldFault::MissingField {
            record: 1,
            tag: SG2D,
        },
    ),
    (
        SG3D,
        b"00065 L   0900032   21 4SG3D330\x1e\
            0000;&   \x1f*VE3D!YCOO!XCOO\x1f(3b24)\x1e\
            00057 D     00032   21 4SG3D250\x1e\
            \0\0\0\0\x01\0\0\0\x02\0\0\0\
            \xc0\xbd\xf0\xff\x03\0\0\0\x04\0\0\0\
            \x1e",
        FieldFault::Value {
            record: 1,
            label: VE3D,
        },
    ),
    (
        ATTV,
        b"00064 L   0900032   21 4ATTV320\x1e\
            0000;&   \x1f*ATVL!ATTL\x1f(A(2),b12)\x1e\
            00041 D     00032   21 4ATTV090\x1e\
            4\x1f\x01\0\
            ab\x02\0\
            \x1e",
        FieldFault::Value {
            record: 1,
            label: ATVL,
        },
    ),
    (
        ATTF,
        b"00061 L   0900032   21 4ATTF290\x1e\
            0000;&   \x1f*ATVL!ATTL\x1f(A,b24)\x1e\
            00044 D     00032   21 4ATTF120\x1e\
            4\x1f\x01\0\0\0\
            \x1f\0\0\x01\0\
            \x1e",
        FieldFault::Value {
            record: 1,
            label: ATTL,
        },
    ),
    (
        VRPT,
        b"00085 L   0900032   21 4VRPT530\x1e\
            0000;&   \x1f*MASK!TOPI!USAG!ORNT!NAME\x1f(b12,3b11,B(40))\x1e\
            00053 D     00032   21 4VRPT210\x1e\
            \xff\0\x01\xff\xffx\x01\0\0\0\
            \0\x01\x02\xff\xffx\x02\0\0\0\
            \x1e",
        FieldFault::Value {
            record: 1,
            label: MASK,
        },
    ),
    (
        FSPT,
        b"00080 L   0900032   21 4FSPT480\x1e\
            0000;&   \x1f*USAG!NAME!MASK!ORNT\x1f(b11,B(48),2b11)\x1e\
            00042 D     00032   21 4FSPT100\x1e\
            \x01\x82\x01\0\0\0\0\xff\x01\
            \x1e",
        FieldFault::Value {
            record: 1,
            label: NAME,
        },
    ),
    (
        FFPT,
        b"00065 L   0900032   21 4FFPT330\x1e\
            0000;&   \x1f*RIND!LNAM\x1f(b12,B(64))\x1e\
            00053 D     00032   21 4FFPT210\x1e\
            \x02\0&\x02\x07\0\0\0\x01\0\
            \x02\x01&\x02\x08\0\0\0\x01\0\
            \x1e",
        FieldFault::Value {
            record: 1,
            label: RIND,
        },
    ),
];

/// Why the list of the first record isn't read.
fn fault_of(alloc: Global, file: &RecordFile, tag: [u8; 4]) -> Option<FieldFault> {
    match tag {
        SG2D => read_sg2d(alloc, file, 1).err(),
        SG3D => read_sg3d(alloc, file, 1).err(),
        ATTV => read_attv(alloc, file, 1).err(),
        ATTF => read_attf(alloc, file, 1).err(),
        VRPT => read_vrpt(alloc, file, 1).err(),
        FSPT => read_fspt(alloc, file, 1).err(),
        FFPT => read_ffpt(alloc, file, 1).err(),
        _ => None,
    }
}

/// The number of the first list of the table that is read, or has another fault.
fn first_wrong(alloc: Global) -> Result<Option<usize>, FileFault> {
    for (number, unread) in LISTS.iter().enumerate() {
        let file = read(alloc, unread.1, unread.0)?;
        if fault_of(alloc, &file, unread.0) != Some(unread.2) {
            return Ok(Some(number));
        }
    }
    Ok(None)
}

#[test]
fn lists_with_labels_in_another_order(rt: HostRuntime) -> Result<(), Fail> {
    assert_eq!(rt; first_wrong(rt.alloc())?, None);
    Ok(())
}
