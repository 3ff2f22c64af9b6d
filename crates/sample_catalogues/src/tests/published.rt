//! A whole catalogue, as the standard describes it (S-57 Part 3, exchange sets; Appendix B.1, catalogue file).
//!
//! Its files are the catalogue itself, two texts, a picture, two cells of two producers, in upper and lower case, and
//! an update of the one, on two volumes. The file is cut off at some places, and has one byte changed at others.

use super::files::{read, written};
use super::lines::joined;
use exchange_catalogue::{CatalogueFault, load_order};
use iso8211_records::FileFault;
use std::alloc::{AllocError, Global};
use std::test::Fail;

/// The file. Its records begin at 0, 216, 310, 426, 565, 706, 818 and 944, and it has 1,080 bytes.
static FILE: &[u8] = b"002163LE1 0900047 ! 3404\
    00010470000CATD1220047\x1e\
    0500;&   ISO/IEC 8211 Record Identifier\x1f\x1f(b12)\x1e\
    1600;&   Catalogue Directory field\x1f\
    RCNM!RCID!FILE!LFIL!VOLM!IMPL!SLAT!WLON!NLAT!ELON!CRCS!COMT\x1f(A(2),I(10),3A,A(3),4R,2A)\x1e\
    00094 D     00049   4404\
    000100030000CATD00420003\x1e\
    \x01\x00\x1e\
    CD0000000001CATALOG.031\x1f\x1fV01X02\x1fASC\x1f\x1f\x1f\x1f\x1f\x1f\x1e\
    00116 D     00049   4404\
    000100030000CATD00640003\x1e\
    \x02\x00\x1e\
    CD0000000002README.TXT\x1f\x1fV01X02\x1fTXT\x1f\x1f\x1f\x1f\x1fAbout this exchange set\x1f\x1e\
    00139 D     00049   4404\
    000100030000CATD00870003\x1e\
    \x03\x00\x1e\
    CD0000000003GB5X01NE\\GB5X01NE.000\x1f\x1fV01X02\x1fBIN\
    50.5\x1f-1.75\x1f50.75\x1f-1.5\x1f3F2A9C01\x1fBase file\x1f\x1e\
    00141 D     00049   4404\
    000100030000CATD00890003\x1e\
    \x04\x00\x1e\
    CD0000000004GB5X01NE\\GB5PIC01.TIF\x1fPicture of a leading line.TIF\x1fV01X02\x1fTIF\
    \x1f\x1f\x1f\x1f0071D2FE\x1f\x1f\x1e\
    00112 D     00049   4404\
    000100030000CATD00600003\x1e\
    \x05\x00\x1e\
    CD0000000005GB5X01NE\\GB5TXT01.TXT\x1f\x1fV01X02\x1fTXT\x1f\x1f\x1f\x1f9A0C55E1\x1f\x1f\x1e\
    00126 D     00049   4404\
    000100030000CATD00740003\x1e\
    \x06\x00\x1e\
    CD0000000006us4fl11m\\us4fl11m.000\x1f\x1fV02X02\x1fBIN\
    24\x1f-82\x1f24.5\x1f-81.5\x1fDA17C0DE\x1f\x1f\x1e\
    00136 D     00049   4404\
    000100030000CATD00840003\x1e\
    \x07\x00\x1e\
    CD0000000007GB5X01NE\\GB5X01NE.001\x1f\x1fV02X02\x1fBIN\
    50.5\x1f-1.75\x1f50.75\x1f-1.5\x1f00000000\x1fUpdate\x1f\x1e";

/// What it lists.
const ENTRIES: &[u8] = b"1 other CATALOG.031
2 other README.TXT
3 binary GB5X01NE\\GB5X01NE.000
4 other GB5X01NE\\GB5PIC01.TIF
5 other GB5X01NE\\GB5TXT01.TXT
6 binary us4fl11m\\us4fl11m.000
7 binary GB5X01NE\\GB5X01NE.001
";

/// Its cell files as they are loaded.
const ORDER: &[u8] = b"GB5X01NE/GB5X01NE.000\nGB5X01NE/GB5X01NE.001\nus4fl11m/us4fl11m.000";

#[test]
fn a_catalogue_is_read_and_put_in_order(rt: HostRuntime) -> Result<(), Fail> {
    let entries = read(rt.alloc(), FILE)?;
    assert!(rt; written(rt.alloc(), &entries)?.as_slice() == ENTRIES);
    let paths = load_order(rt.alloc(), &entries)?;
    assert!(rt; joined(rt.alloc(), &paths)?.as_slice() == ORDER);
    Ok(())
}

/// How many files a catalogue lists, and how many of them are binary, or its first fault.
type Outcome = Result<(usize, usize), CatalogueFault>;

fn outcome(alloc: Global, bytes: &[u8]) -> Outcome {
    let entries = read(alloc, bytes)?;
    let all = entries.as_slice();
    Ok((all.len(), all.iter().filter(|entry| entry.binary).count()))
}

/// A fault of the file of records.
macro_rules! in_file {
    ($fault:ident, $offset:expr) => {
        Err(CatalogueFault::File(FileFault::$fault($offset)))
    };
}

/// The length of a front of the file, and what reading it gives.
static FRONTS: [(usize, Outcome); 12] = [
    (0, in_file!(Leader, 0)),
    (23, in_file!(Leader, 0)),
    (45, in_file!(Directory, 35)),
    (46, in_file!(Directory, 46)),
    (215, in_file!(Span, 0)),
    // the description alone, and whole records
    (216, Ok((0, 0))),
    (239, in_file!(Leader, 216)),
    (240, in_file!(Directory, 240)),
    (309, in_file!(Span, 216)),
    (310, Ok((1, 0))),
    (944, Ok((6, 2))),
    (1080, Ok((7, 3))),
];

#[test]
fn fronts(rt: HostRuntime) -> Result<(), Fail> {
    for (count, wanted) in &FRONTS {
        let front = FILE.get(..*count).ok_or("the file is longer")?;
        assert_eq!(rt; outcome(rt.alloc(), front), *wanted, "at {count}");
    }
    Ok(())
}

/// A place in the file, another byte there, and what reading the file then gives.
static CHANGES: [(usize, u8, Outcome); 16] = [
    // of the first record, the leader, the directory and the description
    (6, b'D', in_file!(Leader, 0)),
    (39, b'x', in_file!(Directory, 35)),
    (35, b'D', in_file!(Descriptor, *b"CATD")),
    (189, b'[', in_file!(Descriptor, *b"CATD")),
    (24, b'1', Ok((7, 3))),
    // of data records, the length, the directory, the terminators and a subfield
    (571, b'L', in_file!(Leader, 565)),
    (947, b'4', in_file!(Span, 944)),
    (605, b'x', in_file!(Directory, 601)),
    (425, 0x1f, in_file!(Terminator, 346)),
    (
        511,
        b'x',
        Err(CatalogueFault::File(FileFault::Subfield(3, *b"CATD"))),
    ),
    // a record that has the field no more, and one of which another field is looked at no more
    (252, b'D', Ok((6, 3))),
    (980, b'D', Ok((6, 2))),
    (267, 0x1f, Ok((7, 3))),
    // a name of the record that isn't looked at, a path and implementations that are
    (478, b'x', Ok((7, 3))),
    (520, b'b', Ok((7, 2))),
    (494, 0x00, Ok((7, 3))),
];

/// The file with another byte at a place.
fn changed(alloc: Global, place: usize, byte: u8) -> Result<Vec<u8>, AllocError> {
    let mut bytes = Vec::from_slice(alloc, FILE)?;
    if let Some(at) = bytes.get_mut(place) {
        *at = byte;
    }
    Ok(bytes)
}

#[test]
fn changes(rt: HostRuntime) -> Result<(), Fail> {
    for (place, byte, wanted) in &CHANGES {
        let bytes = changed(rt.alloc(), *place, *byte)?;
        assert_eq!(rt;
            outcome(rt.alloc(), bytes.as_slice()),
            *wanted,
            "at {place}"
        );
    }
    Ok(())
}
