//! Files that are no data sets.
//!
//! Each is a whole file of records (ISO/IEC 8211), in which one rule of S-57 is broken. So the file is read without a
//! fault, and only its data set has one.

use super::read;
use s57_records::{DatasetFault, read_dataset};
use s57_subfields::labels::CCUI;
use s57_subfields::tags::{DSPM, FOID};
use std::test::Fail;

/// The tag of arcs, which a record must not have.
const ARCC: [u8; 4] = *b"ARCC";

#[test]
fn file_without_general_information(rt: HostRuntime) -> Result<(), Fail> {
    let bytes = b"00053 L   0900032   21 4DSSI210\x1e\
        0000;&   \x1fAALL\x1f(b11)\x1e\
        00033 D     00031   11 4DSSI20\x1e\
        \x01\x1e";
    let file = read(rt.alloc(), bytes)?;
    let fault = read_dataset(rt.alloc(), &file).err();
    assert_eq!(rt; fault, Some(DatasetFault::NoGeneral));
    Ok(())
}

#[test]
fn base_without_parameters(rt: HostRuntime) -> Result<(), Fail> {
    let bytes = b"00090 L   0900032   21 4DSID580\x1e\
        0000;&   \x1fDSNM!EDTN!UPDN!ISDT!PROF!AGEN\x1f(3A,A(8),b11,b12)\x1e\
        00061 D     00032   21 4DSID290\x1e\
        AA5TEST1.000\x1f2\x1f0\x1f20240131\x01&\x02\x1e";
    let file = read(rt.alloc(), bytes)?;
    let fault = read_dataset(rt.alloc(), &file).err();
    assert_eq!(rt; fault, Some(DatasetFault::Profile(DSPM)));
    Ok(())
}

#[test]
fn deletion_with_arcs(rt: HostRuntime) -> Result<(), Fail> {
    let bytes = b"00147 L   0900041   22 4DSID5800VRID4858\x1e\
        0000;&   \x1fDSNM!EDTN!UPDN!ISDT!PROF!AGEN\x1f(3A,A(8),b11,b12)\x1e\
        0000;&   \x1fRCNM!RCID!RVER!RUIN\x1f(b11,b14,b12,b11)\x1e\
        00061 D     00032   21 4DSID290\x1e\
        AA5TEST1.000\x1f2\x1f1\x1f20240131\x02&\x02\x1e\
        00047 D     00037   11 4VRID90ARCC19\x1e\
        n\x07\0\0\0\x04\0\x02\x1e\
        \x1e";
    let file = read(rt.alloc(), bytes)?;
    let fault = read_dataset(rt.alloc(), &file).err();
    assert_eq!(rt; fault, Some(DatasetFault::Profile(ARCC)));
    Ok(())
}

#[test]
fn instruction_that_is_not_listed(rt: HostRuntime) -> Result<(), Fail> {
    let bytes = b"00194 L   0900052   23 4DSID58000VRID48058SGCC36106\x1e\
        0000;&   \x1fDSNM!EDTN!UPDN!ISDT!PROF!AGEN\x1f(3A,A(8),b11,b12)\x1e\
        0000;&   \x1fRCNM!RCID!RVER!RUIN\x1f(b11,b14,b12,b11)\x1e\
        0000;&   \x1fCCUI!CCIX!CCNC\x1f(b11,2b12)\x1e\
        00061 D     00032   21 4DSID290\x1e\
        AA5TEST1.000\x1f2\x1f1\x1f20240131\x02&\x02\x1e\
        00052 D     00037   11 4VRID90SGCC69\x1e\
        \x82\x07\0\0\0\x04\0\x03\x1e\
        \x04\x03\0\x01\0\x1e";
    let bad = DatasetFault::Value {
        record: 2,
        label: CCUI,
    };
    let file = read(rt.alloc(), bytes)?;
    let fault = read_dataset(rt.alloc(), &file).err();
    assert_eq!(rt; fault, Some(bad));
    Ok(())
}

#[test]
fn insertion_without_an_identifier(rt: HostRuntime) -> Result<(), Fail> {
    let bytes = b"00168 L   0900041   22 4DSID5800FRID6958\x1e\
        0000;&   \x1fDSNM!EDTN!UPDN!ISDT!PROF!AGEN\x1f(3A,A(8),b11,b12)\x1e\
        0000;&   \x1fRCNM!RCID!PRIM!GRUP!OBJL!RVER!RUIN\x1f(b11,b14,2b11,2b12,b11)\x1e\
        00061 D     00032   21 4DSID290\x1e\
        AA5TEST1.000\x1f2\x1f1\x1f20240131\x02&\x02\x1e\
        00045 D     00032   21 4FRID130\x1e\
        d\x07\0\0\0\x03\x02.\x01\x01\0\x01\x1e";
    let missing = DatasetFault::MissingField {
        record: 2,
        tag: FOID,
    };
    let file = read(rt.alloc(), bytes)?;
    let fault = read_dataset(rt.alloc(), &file).err();
    assert_eq!(rt; fault, Some(missing));
    Ok(())
}
