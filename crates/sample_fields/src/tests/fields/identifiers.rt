//! The identifiers of records and objects.
//!
//! The update instruction (RUIN) is read where it is asked for, and else not looked at; one record here is read with it
//! and one without. Some numbers have bytes that differ, so that one read the wrong way round shows.

use super::read;
use chart_model::Foid;
use s57_fields::{read_foid, read_frid, read_vrid};
use s57_subfields::tags::{FOID, FRID, VRID};
use std::test::Fail;

#[test]
fn identifier_of_a_vector_record(rt: HostRuntime) -> Result<(), Fail> {
    let bytes = b"00080 L   0900032   21 4VRID480\x1e\
        0000;&   \x1fRCNM!RCID!RVER!RUIN\x1f(b11,b14,b12,b11)\x1e\
        00040 D     00031   11 4VRID90\x1e\
        n\x07\0\0\x01\x02\0\x03\x1e";
    let file = read(rt.alloc(), bytes, VRID)?;
    let vrid = read_vrid(rt.alloc(), &file, 1, true)?;
    assert_eq!(rt; (vrid.rcnm, vrid.rcid), (110, 16_777_223));
    assert_eq!(rt; (vrid.rver, vrid.ruin), (2, 3));
    Ok(())
}

#[test]
fn identifier_of_a_feature(rt: HostRuntime) -> Result<(), Fail> {
    let bytes = b"00101 L   0900032   21 4FRID690\x1e\
        0000;&   \x1fRCNM!RCID!PRIM!GRUP!OBJL!RVER!RUIN\x1f(b11,b14,2b11,2b12,b11)\x1e\
        00045 D     00032   21 4FRID130\x1e\
        d\x07\0\0\0\x03\x02.\x01\x04\0\x01\x1e";
    let file = read(rt.alloc(), bytes, FRID)?;
    let frid = read_frid(rt.alloc(), &file, 1, false)?;
    assert_eq!(rt;
        (frid.rcnm, frid.rcid, frid.prim, frid.grup),
        (100, 7, 3, 2)
    );
    // The update instruction is not asked for.
    assert_eq!(rt; (frid.objl, frid.rver, frid.ruin), (302, 4, 0));
    Ok(())
}

#[test]
fn identifier_of_a_feature_object(rt: HostRuntime) -> Result<(), Fail> {
    let bytes = b"00071 L   0900032   21 4FOID390\x1e\
        0000;&   \x1fAGEN!FIDN!FIDS\x1f(b12,b14,b12)\x1e\
        00040 D     00031   11 4FOID90\x1e\
        &\x02\x07\0\0\0\x01\0\x1e";
    let foid = Foid {
        agen: 550,
        fidn: 7,
        fids: 1,
    };
    let file = read(rt.alloc(), bytes, FOID)?;
    assert_eq!(rt; read_foid(rt.alloc(), &file, 1)?, foid);
    Ok(())
}
