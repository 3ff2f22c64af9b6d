//! Sessions of a day.
//!
//! The same lines by one day, by another and by none: drawings and panels differ, and what is held and what is dangerous
//! doesn't. The days stand at the ends of the times that the features have.

use super::turns::{failing, said_on_day, shelf};
use chart_ports::{FileBytes, MemoryDesk, MemoryShelf};
use date_display::read_day;
use std::alloc::{AllocError, Global};
use std::test::Fail;

/// The data descriptive record, of 493 bytes.
const FIRST: &[u8] =
    b"00493 L   0900106   23 4DSID58000DSSI21058DSPM51079VRID48130SG2D28178FRID69206FOID39275ATTF29314FSPT44343\x1e\
0000;&   \x1fDSNM!EDTN!UPDN!ISDT!PROF!AGEN\x1f(3A,A(8),b11,b12)\x1e\
0000;&   \x1fAALL\x1f(b11)\x1e\
0000;&   \x1fCSCL!DUNI!COUN!COMF!SOMF\x1f(b14,2b11,2b14)\x1e\
0000;&   \x1fRCNM!RCID!RVER!RUIN\x1f(b11,b14,b12,b11)\x1e\
0000;&   \x1f*YCOO!XCOO\x1f(2b24)\x1e\
0000;&   \x1fRCNM!RCID!PRIM!GRUP!OBJL!RVER!RUIN\x1f(b11,b14,2b11,2b12,b11)\x1e\
0000;&   \x1fAGEN!FIDN!FIDS\x1f(b12,b14,b12)\x1e\
0000;&   \x1f*ATTL!ATVL\x1f(b12,A)\x1e\
0000;&   \x1f*NAME!ORNT!USAG!MASK\x1f(B(40),3b11)\x1e";

/// The records of a base file: at one node a depth area without dates, one until the end of June 2024, and a wreck from
/// November to March of every year.
const DATED: &[u8] = b"00074 D   0900043   23 4DSID29000DSSI02029\x1e\
AA5TEST1.000\x1f1\x1f0\x1f20240131\x01&\x02\x1e\
\x01\x1e\
00049 D   0900034   23 4DSPM15000\x1e\
\x10'\0\0\x01\x01\x80\x96\x98\0\n\0\0\0\x1e\
00061 D   0900043   23 4VRID09000SG2D09009\x1e\
n\x01\0\0\0\x01\0\x01\x1e\
\0\0\0\0d\0\0\0\x1e\
00083 D   0900052   23 4FRID13000FOID09013FSPT09022\x1e\
d\x01\0\0\0\x01\x02*\0\x01\0\x01\x1e\
&\x02\x01\0\0\0\x01\0\x1e\
n\x01\0\0\0\xff\xff\xff\x1e\
00104 D   0900061   23 4FRID13000FOID09013ATTF12022FSPT09034\x1e\
d\x02\0\0\0\x01\x02*\0\x01\0\x01\x1e\
&\x02\x02\0\0\0\x01\0\x1e\
U\020240630\x1f\x1e\
n\x01\0\0\0\xff\xff\xff\x1e\
00111 D   0900061   23 4FRID13000FOID09013ATTF19022FSPT09041\x1e\
d\x03\0\0\0\x01\x02\x9f\0\x01\0\x01\x1e\
&\x02\x03\0\0\0\x01\0\x1e\
v\0--0331\x1fw\0--1101\x1f\x1e\
n\x01\0\0\0\xff\xff\xff\x1e";

/// The records of the same cell issued once more, with the second depth area alone, and until the end of 2023.
const OVER: &[u8] = b"00074 D   0900043   23 4DSID29000DSSI02029\x1e\
AA5TEST1.000\x1f1\x1f0\x1f20240131\x01&\x02\x1e\
\x01\x1e\
00049 D   0900034   23 4DSPM15000\x1e\
\x10'\0\0\x01\x01\x80\x96\x98\0\n\0\0\0\x1e\
00061 D   0900043   23 4VRID09000SG2D09009\x1e\
n\x01\0\0\0\x01\0\x01\x1e\
\0\0\0\0d\0\0\0\x1e\
00100 D   0900061   23 4FRID13000FOID09013ATTF08022FSPT09030\x1e\
d\x02\0\0\0\x01\x02*\0\x01\0\x01\x1e\
&\x02\x02\0\0\0\x01\0\x1e\
U\02023\x1f\x1e\
n\x01\0\0\0\xff\xff\xff\x1e";

/// Lines that list and draw what is held, show it on a panel, and pass it by a route, first of the one file and then of
/// the other.
const ALL: [&[u8]; 13] = [
    b"load DATED",
    b"cells",
    b"draw AA5TEST1",
    b"route WAY",
    b"refresh 2",
    b"paint 2 9",
    b"panel 2",
    b"load OVER",
    b"draw AA5TEST1",
    b"refresh 2",
    b"paint 2 9",
    b"panel 2",
    b"route WAY",
];

const DRAWN: [&[u8]; 2] = [b"load DATED", b"draw AA5TEST1"];

/// What is replied without a day.
const WHOLE: &[u8] = b"ok load AA5TEST1 1 0\nok cells 1\ncell AA5TEST1 1 0 1 4\n\
ok draw AA5TEST1 5\nitem 4 P 1 whole SY(A)\nitem 4 P 1 whole SY(B)\nitem 4 P 2 whole SY(A)\n\
item 4 P 2 whole SY(B)\nitem 5 P 3 whole SY(QUESMRK1)\n\
ok route 2 2\ndanger 1 AA5TEST1 3 0\ndanger 2 AA5TEST1 3 0\n\
ok refresh 2 4\nok paint 2 4 4\nok panel 2 3 5\nok load AA5TEST1 1 0\n\
ok draw AA5TEST1 2\nitem 4 P 2 whole SY(A)\nitem 4 P 2 whole SY(B)\n\
ok refresh 2 2\nok paint 2 2 2\nok panel 2 1 2\nok route 2 0\n";

/// What is replied with one on which the first depth area alone is shown, and of the other file nothing.
const IN_JULY: &[u8] = b"ok load AA5TEST1 1 0\nok cells 1\ncell AA5TEST1 1 0 1 4\n\
ok draw AA5TEST1 2\nitem 4 P 1 whole SY(A)\nitem 4 P 1 whole SY(B)\n\
ok route 2 2\ndanger 1 AA5TEST1 3 0\ndanger 2 AA5TEST1 3 0\n\
ok refresh 2 2\nok paint 2 2 2\nok panel 2 1 2\nok load AA5TEST1 1 0\n\
ok draw AA5TEST1 0\n\
ok refresh 2 1\nok paint 2 1 1\nok panel 2 0 0\nok route 2 0\n";

const ALL_DRAWN: &[u8] = b"ok load AA5TEST1 1 0\nok draw AA5TEST1 5\n\
item 4 P 1 whole SY(A)\nitem 4 P 1 whole SY(B)\nitem 4 P 2 whole SY(A)\n\
item 4 P 2 whole SY(B)\nitem 5 P 3 whole SY(QUESMRK1)\n";

const AREAS_DRAWN: &[u8] = b"ok load AA5TEST1 1 0\nok draw AA5TEST1 4\n\
item 4 P 1 whole SY(A)\nitem 4 P 1 whole SY(B)\nitem 4 P 2 whole SY(A)\nitem 4 P 2 whole SY(B)\n";

const FIRST_AND_WRECK_DRAWN: &[u8] = b"ok load AA5TEST1 1 0\nok draw AA5TEST1 3\n\
item 4 P 1 whole SY(A)\nitem 4 P 1 whole SY(B)\nitem 5 P 3 whole SY(QUESMRK1)\n";

/// The day, or nothing for none; the lines, and what is replied.
static DAYS: [(&[u8], &[&[u8]], &[u8]); 8] = [
    (b"", &ALL, WHOLE),
    (b"20240701", &ALL, IN_JULY),
    (b"20240101", &DRAWN, ALL_DRAWN),
    (b"20240331", &DRAWN, ALL_DRAWN),
    (b"20240401", &DRAWN, AREAS_DRAWN),
    (b"20240630", &DRAWN, AREAS_DRAWN),
    (b"20241101", &DRAWN, FIRST_AND_WRECK_DRAWN),
    (b"00010101", &DRAWN, ALL_DRAWN),
];

/// Puts a file of these records on the shelf.
fn add_dated(
    alloc: Global,
    shelf: &mut MemoryShelf,
    name: &str,
    records: &[u8],
) -> Result<(), AllocError> {
    let mut bytes = FIRST.to_vec(alloc)?;
    bytes.extend_from_slice(records)?;
    shelf.insert(String::from_str(alloc, name)?, FileBytes::from_vec(bytes))
}

/// The replies over a new store on the day of a text, or without one where it is none.
fn said_by(alloc: Global, day: &[u8], lines: &[&[u8]]) -> Result<Vec<u8>, AllocError> {
    let mut shelf = shelf(alloc, 0)?;
    add_dated(alloc, &mut shelf, "DATED", DATED)?;
    add_dated(alloc, &mut shelf, "OVER", OVER)?;
    let mut desk = MemoryDesk::new(alloc, failing(alloc, 0)?);
    said_on_day(alloc, lines, &mut shelf, &mut desk, read_day(day))
}

#[test]
fn days(rt: HostRuntime) -> Result<(), Fail> {
    for (at, (day, lines, wanted)) in DAYS.iter().enumerate() {
        let said = said_by(rt.alloc(), day, lines)?;
        assert!(rt; said.as_slice() == *wanted, "case {at}");
    }
    Ok(())
}
