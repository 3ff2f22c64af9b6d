//! What a file says of its data set.
//!
//! Only some subfields of each row are asked for, and these files describe no others: what isn't asked for may be
//! missing.

use super::read;
use s57_fields::{read_dsid, read_dspm, read_dssi};
use s57_subfields::tags::{DSID, DSPM, DSSI};
use std::test::Fail;

#[test]
fn general_information(rt: HostRuntime) -> Result<(), Fail> {
    let bytes = b"00090 L   0900032   21 4DSID580\x1e\
        0000;&   \x1fDSNM!EDTN!UPDN!ISDT!PROF!AGEN\x1f(3A,A(8),b11,b12)\x1e\
        00061 D     00032   21 4DSID290\x1e\
        AA5TEST1.000\x1f2\x1f1\x1f20240131\x01&\x02\x1e";
    let file = read(rt.alloc(), bytes, DSID)?;
    let dsid = read_dsid(rt.alloc(), &file, 1)?;
    assert_eq!(rt; dsid.dsnm.as_slice(), b"AA5TEST1.000".as_slice());
    assert_eq!(rt;
        (dsid.edtn, dsid.updn, dsid.prof, dsid.agen),
        (2, 1, 1, 550)
    );
    assert_eq!(rt; dsid.isdt, *b"20240131");
    Ok(())
}

#[test]
fn structure_information(rt: HostRuntime) -> Result<(), Fail> {
    let bytes = b"00053 L   0900032   21 4DSSI210\x1e\
        0000;&   \x1fAALL\x1f(b11)\x1e\
        00033 D     00031   11 4DSSI20\x1e\
        \x01\x1e";
    let file = read(rt.alloc(), bytes, DSSI)?;
    assert_eq!(rt; read_dssi(rt.alloc(), &file, 1)?.aall, 1);
    Ok(())
}

#[test]
fn parameters(rt: HostRuntime) -> Result<(), Fail> {
    let bytes = b"00083 L   0900032   21 4DSPM510\x1e\
        0000;&   \x1fCSCL!DUNI!COUN!COMF!SOMF\x1f(b14,2b11,2b14)\x1e\
        00047 D     00032   21 4DSPM150\x1e\
        \x10'\0\0\x01\x02\x80\x96\x98\0\x0a\0\0\0\x1e";
    let file = read(rt.alloc(), bytes, DSPM)?;
    let dspm = read_dspm(rt.alloc(), &file, 1)?;
    assert_eq!(rt; (dspm.cscl, dspm.duni, dspm.coun), (10_000, 1, 2));
    assert_eq!(rt; (dspm.comf, dspm.somf), (10_000_000, 10));
    Ok(())
}
