//! Small cell files, made by hand.
//!
//! Their bytes are spelled out, and no writer makes them, so that no fault of a writer can hide one of a reader. All
//! have the same data descriptive record, so a file is that and a few data records.

use std::alloc::{AllocError, Global};

/// The data descriptive record, of 500 bytes.
const FIRST: &[u8] =
    b"00500 L   0900106   23 4DSID58000DSSI21058DSPM51079VRID48130SGCC36178SG2D28214FRID69242FOID39311FSPT44350\x1e\
0000;&   \x1fDSNM!EDTN!UPDN!ISDT!PROF!AGEN\x1f(3A,A(8),b11,b12)\x1e\
0000;&   \x1fAALL\x1f(b11)\x1e\
0000;&   \x1fCSCL!DUNI!COUN!COMF!SOMF\x1f(b14,2b11,2b14)\x1e\
0000;&   \x1fRCNM!RCID!RVER!RUIN\x1f(b11,b14,b12,b11)\x1e\
0000;&   \x1fCCUI!CCIX!CCNC\x1f(b11,2b12)\x1e\
0000;&   \x1f*YCOO!XCOO\x1f(2b24)\x1e\
0000;&   \x1fRCNM!RCID!PRIM!GRUP!OBJL!RVER!RUIN\x1f(b11,b14,2b11,2b12,b11)\x1e\
0000;&   \x1fAGEN!FIDN!FIDS\x1f(b12,b14,b12)\x1e\
0000;&   \x1f*NAME!ORNT!USAG!MASK\x1f(B(40),3b11)\x1e";

/// The records of a base file: general information; parameters; an isolated node; a point feature there.
const BASE: &[u8] = b"00074 D   0900043   23 4DSID29000DSSI02029\x1e\
AA5TEST1.000\x1f1\x1f0\x1f20240131\x01&\x02\x1e\
\x01\x1e\
00049 D   0900034   23 4DSPM15000\x1e\
\x10'\0\0\x01\x01\x80\x96\x98\0\n\0\0\0\x1e\
00061 D   0900043   23 4VRID09000SG2D09009\x1e\
n\x01\0\0\0\x01\0\x01\x1e\
\0\0\0\0d\0\0\0\x1e\
00083 D   0900052   23 4FRID13000FOID09013FSPT09022\x1e\
d\x01\0\0\0\x01\x02*\0\x01\0\x01\x1e\
&\x02\x01\0\0\0\x01\0\x1e\
n\x01\0\0\0\xff\xff\xff\x1e";

/// The records of its first update: the node at another place.
const UPDATE: &[u8] = b"00063 D   0900034   23 4DSID29000\x1e\
AA5TEST1.001\x1f1\x1f1\x1f20240201\x02&\x02\x1e\
00076 D   0900052   23 4VRID09000SGCC06009SG2D09015\x1e\
n\x01\0\0\0\x02\0\x03\x1e\
\x03\x01\0\x01\0\x1e\
\x07\0\0\0\x08\0\0\0\x1e";

/// The records of its second update, which deletes the node, though the feature stands there.
const DELETION: &[u8] = b"00063 D   0900034   23 4DSID29000\x1e\
AA5TEST1.002\x1f1\x1f2\x1f20240202\x02&\x02\x1e\
00043 D   0900034   23 4VRID09000\x1e\
n\x01\0\0\0\x03\0\x02\x1e";

/// The record of an update that cancels the cell.
const CANCELLATION: &[u8] = b"00063 D   0900034   23 4DSID29000\x1e\
AA5TEST1.002\x1f0\x1f2\x1f20240202\x02&\x02\x1e";

/// Where the eighth character of the cell's name stands in a file.
const LAST_OF_NAME: usize = 550;

/// The data descriptive record and these.
fn with_first(alloc: Global, records: &[u8]) -> Result<Vec<u8>, AllocError> {
    let mut bytes = FIRST.to_vec(alloc)?;
    bytes.extend_from_slice(records)?;
    Ok(bytes)
}

pub fn base(alloc: Global) -> Result<Vec<u8>, AllocError> {
    with_first(alloc, BASE)
}

pub fn update(alloc: Global) -> Result<Vec<u8>, AllocError> {
    with_first(alloc, UPDATE)
}

pub fn deletion(alloc: Global) -> Result<Vec<u8>, AllocError> {
    with_first(alloc, DELETION)
}

pub fn cancellation(alloc: Global) -> Result<Vec<u8>, AllocError> {
    with_first(alloc, CANCELLATION)
}

/// A base file of a cell whose name ends in this character.
pub fn base_of(alloc: Global, last: u8) -> Result<Vec<u8>, AllocError> {
    let mut bytes = base(alloc)?;
    if LAST_OF_NAME < bytes.len() {
        bytes[LAST_OF_NAME] = last;
    }
    Ok(bytes)
}

/// The heads of records with a field that is not read, of 99,999 and of 87,924 bytes.
const LONGEST: &[u8; 39] = b"99999 D   0900039   55 4XXXX9996000000\x1e";

const LAST: &[u8; 39] = b"87924 D   0900039   55 4XXXX8788500000\x1e";

/// A record of this head and so many bytes.
fn record_of(alloc: Global, head: &[u8], count: usize) -> Result<Vec<u8>, AllocError> {
    let mut bytes = head.to_vec(alloc)?;
    for _ in head.len() + 1..count {
        bytes.push(b'x')?;
    }
    bytes.push(0x1E)?;
    Ok(bytes)
}

/// The same base file with records that are not read, of 8,388,608 bytes in all.
pub fn longest_of(alloc: Global, last: u8) -> Result<Vec<u8>, AllocError> {
    let mut bytes = base_of(alloc, last)?;
    let record = record_of(alloc, LONGEST, 99_999)?;
    for _ in 0..83 {
        bytes.extend_from_slice(&record)?;
    }
    bytes.extend_from_slice(&record_of(alloc, LAST, 87_924)?)?;
    Ok(bytes)
}
