//! Records.
//!
//! Each record is written alone in its file, so that its bytes stand at one place and can be compared to the last.
//! Which fields it has, and where its directory says that they are, goes by which of its lists are empty.

use cell_writer::write_cell;
use sample_rows::{Foid, Row, chart, feature, vector};
use std::test::Fail;

/// The bytes of the data descriptive record, and those of the records of general information and of parameters.
const BEFORE: usize = 1761 + 161 + 82;

/// A record, and the bytes that stand for it.
const RECORDS: [(Row, &[u8]); 10] = [
    // a node with nothing, and with one attribute whose text is empty, at the greatest version
    (
        vector!(110, 1, [], []),
        b"00065 D     00053   5504000100003000\
        00VRID0000900003\x1e\x03\0\x1en\x01\0\0\0\x01\0\x01\x1e",
    ),
    (
        Row {
            version: 65_535,
            attrs: &[(402, b"")],
            ..vector!(120, 258, [], [])
        },
        b"00083 D     00067   5504000100003000\
        00VRID0000900003ATTV0000400012\x1e\x03\0\x1ex\x02\x01\0\0\xff\xff\x01\x1e\x92\x01\x1f\x1e",
    ),
    // one sounding at 0, and two below and above it: longitude, latitude and depth
    (
        Row {
            deep: true,
            depths: &[0],
            ..vector!(110, 1, [], [(1, 2, 0)])
        },
        b"00092 D     00067   5504000100003000\
        00VRID0000900003SG3D0001300012\x1e\x03\0\x1en\x01\0\0\0\x01\0\x01\x1e\
        \x02\0\0\0\x01\0\0\0\0\0\0\0\x1e",
    ),
    (
        Row {
            deep: true,
            depths: &[-1, 256],
            ..vector!(110, 1, [], [(1, 2, 0), (3, 4, 0)])
        },
        b"00104 D     00067   5504000100003000\
        00VRID0000900003SG3D0002500012\x1e\x03\0\x1en\x01\0\0\0\x01\0\x01\x1e\
        \x02\0\0\0\x01\0\0\0\xff\xff\xff\xff\x04\0\0\0\x03\0\0\0\0\x01\0\0\x1e",
    ),
    // an edge with its pointers, and one point between them
    (
        vector!(130, 9, [(120, 1, 1), (120, 2, 2)], [(5, 6, 0)]),
        b"00121 D     00081   5504000100003000\
        00VRID0000900003VRPT0001900012SG2D0000900031\x1e\x03\0\x1e\x82\x09\0\0\0\x01\0\x01\x1e\
        x\x01\0\0\0\xff\xff\x01\xffx\x02\0\0\0\xff\xff\x02\xff\x1e\x06\0\0\0\x05\0\0\0\x1e",
    ),
    // features of each primitive
    (
        feature!(1, 1, []),
        b"00092 D     00067   5504000100003000\
        00FRID0001300003FOID0000900016\x1e\x03\0\x1ed\x01\0\0\0\x01\x02*\0\x01\0\x01\x1e\x01\0\x01\0\0\0\x01\0\x1e",
    ),
    (
        feature!(2, 1, []),
        b"00092 D     00067   5504000100003000\
        00FRID0001300003FOID0000900016\x1e\x03\0\x1ed\x01\0\0\0\x02\x02*\0\x01\0\x01\x1e\x01\0\x01\0\0\0\x01\0\x1e",
    ),
    (
        feature!(255, 1, []),
        b"00092 D     00067   5504000100003000\
        00FRID0001300003FOID0000900016\x1e\x03\0\x1ed\x01\0\0\0\xff\x02*\0\x01\0\x01\x1e\x01\0\x01\0\0\0\x01\0\x1e",
    ),
    // two related objects
    (
        Row {
            foid: Some(Foid {
                agen: 65_535,
                fidn: 4_294_967_295,
                fids: 65_535,
            }),
            others: &[(0, 7, 1), (0, 8, 3)],
            ..feature!(255, 1, [])
        },
        b"00127 D     00081   5504000100003000\
        00FRID0001300003FOID0000900016FFPT0002100025\x1e\x03\0\x1ed\x01\0\0\0\xff\x02*\0\x01\0\x01\x1e\
        \xff\xff\xff\xff\xff\xff\xff\xff\x1e\
        \x01\0\x07\0\0\0\x01\0\x01\x1f\x01\0\x08\0\0\0\x01\0\x03\x1f\x1e",
    ),
    // a pointer with usage and masking, and an attribute of other bytes than letters
    (
        Row {
            attrs: &[(1, b"\x00\x1d\x20\x7f\x80\xff")],
            marks: &[(3, 1)],
            ..feature!(3, 1, [(130, 4, 2)])
        },
        b"00139 D     00095   5504000100003000\
        00FRID0001300003FOID0000900016ATTF0001000025FSPT0000900035\x1e\x03\0\x1e\
        d\x01\0\0\0\x03\x02*\0\x01\0\x01\x1e\x01\0\x01\0\0\0\x01\0\x1e\
        \x01\0\x00\x1d\x20\x7f\x80\xff\x1f\x1e\x82\x04\0\0\0\x02\x03\x01\x1e",
    ),
];

/// A feature of a class.
macro_rules! of_class {
    ($rcid:expr, $class:expr) => {
        Row {
            class: $class,
            ..feature!(255, $rcid, [])
        }
    };
}

/// Features of the first and the last class of each kind, and of those beside them.
const CLASSES: [Row; 14] = [
    of_class!(1, 1),
    of_class!(2, 42),
    of_class!(3, 299),
    of_class!(4, 300),
    of_class!(5, 350),
    of_class!(6, 399),
    of_class!(7, 400),
    of_class!(8, 401),
    of_class!(9, 450),
    of_class!(10, 499),
    of_class!(11, 500),
    of_class!(12, 599),
    of_class!(13, 600),
    of_class!(14, 65_535),
];

/// Where the numbers of features stand: eight numbers and a terminator end the record of general information.
const COUNTS: usize = 1761 + 161 - 33;

#[test]
fn features_are_counted_by_their_classes(rt: HostRuntime) -> Result<(), Fail> {
    let file = write_cell(rt.alloc(), &chart(rt.alloc(), &CLASSES)?)?;
    let (_, numbers) = file.as_slice().split_at_checked(COUNTS).ok_or("numbers")?;
    let (counts, _) = numbers.split_at_checked(16).ok_or("four numbers")?;
    // meta objects, cartographic objects, geographic ones and collections
    assert!(rt; counts == b"\x03\0\0\0\x02\0\0\0\x05\0\0\0\x04\0\0\0".as_slice());
    Ok(())
}

#[test]
fn records_alone(rt: HostRuntime) -> Result<(), Fail> {
    for (row, bytes) in RECORDS {
        let file = write_cell(rt.alloc(), &chart(rt.alloc(), &[row])?)?;
        let (_, written) = file.as_slice().split_at_checked(BEFORE).ok_or("a record")?;
        assert!(rt; written == bytes);
    }
    Ok(())
}
