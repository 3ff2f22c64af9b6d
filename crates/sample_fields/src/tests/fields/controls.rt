//! The control fields of lists.
//!
//! The four rows differ in their labels alone, so a reader that went by another's would find none of them here. In the
//! last a place of two bytes tells the least significant from the most.

use super::read;
use chart_model::Control;
use s57_fields::{read_ffpc, read_fspc, read_sgcc, read_vrpc};
use s57_subfields::tags::{FFPC, FSPC, SGCC, VRPC};
use std::test::Fail;

fn control(instruction: u8, index: u16, count: u16) -> Control {
    Control {
        instruction,
        index,
        count,
    }
}

#[test]
fn control_of_vector_pointers(rt: HostRuntime) -> Result<(), Fail> {
    let bytes = b"00068 L   0900032   21 4VRPC360\x1e\
        0000;&   \x1fVPUI!VPIX!NVPT\x1f(b11,2b12)\x1e\
        00037 D     00031   11 4VRPC60\x1e\
        \x01\x01\0\x01\0\x1e";
    let file = read(rt.alloc(), bytes, VRPC)?;
    assert_eq!(rt; read_vrpc(rt.alloc(), &file, 1)?, control(1, 1, 1));
    Ok(())
}

#[test]
fn control_of_coordinates(rt: HostRuntime) -> Result<(), Fail> {
    let bytes = b"00068 L   0900032   21 4SGCC360\x1e\
        0000;&   \x1fCCUI!CCIX!CCNC\x1f(b11,2b12)\x1e\
        00037 D     00031   11 4SGCC60\x1e\
        \x01\x02\0\x01\0\x1e";
    let file = read(rt.alloc(), bytes, SGCC)?;
    assert_eq!(rt; read_sgcc(rt.alloc(), &file, 1)?, control(1, 2, 1));
    Ok(())
}

#[test]
fn control_of_related_objects(rt: HostRuntime) -> Result<(), Fail> {
    let bytes = b"00068 L   0900032   21 4FFPC360\x1e\
        0000;&   \x1fFFUI!FFIX!NFPT\x1f(b11,2b12)\x1e\
        00037 D     00031   11 4FFPC60\x1e\
        \x01\x01\0\x01\0\x1e";
    let file = read(rt.alloc(), bytes, FFPC)?;
    assert_eq!(rt; read_ffpc(rt.alloc(), &file, 1)?, control(1, 1, 1));
    Ok(())
}

#[test]
fn control_of_feature_pointers(rt: HostRuntime) -> Result<(), Fail> {
    let bytes = b"00068 L   0900032   21 4FSPC360\x1e\
        0000;&   \x1fFSUI!FSIX!NSPT\x1f(b11,2b12)\x1e\
        00037 D     00031   11 4FSPC60\x1e\
        \x03\x02\x01\x04\0\x1e";
    let file = read(rt.alloc(), bytes, FSPC)?;
    assert_eq!(rt; read_fspc(rt.alloc(), &file, 1)?, control(3, 258, 4));
    Ok(())
}
