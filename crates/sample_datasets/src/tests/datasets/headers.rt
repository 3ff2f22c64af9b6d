//! What the first records of a file say.
//!
//! PROF tells a base file, 1, from an update, 2, and an update of edition 0 cancels its cell. A base file alone has a
//! scale, which stands in its parameters (DSPM).

use super::read;
use s57_records::read_dataset;
use std::test::Fail;

#[test]
fn base_has_a_scale(rt: HostRuntime) -> Result<(), Fail> {
    let bytes = b"00150 L   0900041   22 4DSID5800DSPM5158\x1e\
        0000;&   \x1fDSNM!EDTN!UPDN!ISDT!PROF!AGEN\x1f(3A,A(8),b11,b12)\x1e\
        0000;&   \x1fCSCL!DUNI!COUN!COMF!SOMF\x1f(b14,2b11,2b14)\x1e\
        00061 D     00032   21 4DSID290\x1e\
        AA5TEST1.000\x1f2\x1f0\x1f20240131\x01&\x02\x1e\
        00047 D     00032   21 4DSPM150\x1e\
        \x10'\0\0\x01\x01\x80\x96\x98\0\x0a\0\0\0\x1e";
    let file = read(rt.alloc(), bytes)?;
    let dataset = read_dataset(rt.alloc(), &file)?;
    assert_eq!(rt; (dataset.base, dataset.cancels), (true, false));
    let header = dataset.header;
    assert_eq!(rt; header.key.as_slice(), b"AA5TEST1".as_slice());
    assert_eq!(rt; (header.agency, header.scale), (550, 10_000));
    Ok(())
}

#[test]
fn update_has_numbers_and_a_date(rt: HostRuntime) -> Result<(), Fail> {
    let bytes = b"00090 L   0900032   21 4DSID580\x1e\
        0000;&   \x1fDSNM!EDTN!UPDN!ISDT!PROF!AGEN\x1f(3A,A(8),b11,b12)\x1e\
        00061 D     00032   21 4DSID290\x1e\
        AA5TEST1.000\x1f2\x1f1\x1f20240131\x02&\x02\x1e";
    let file = read(rt.alloc(), bytes)?;
    let dataset = read_dataset(rt.alloc(), &file)?;
    assert_eq!(rt; (dataset.base, dataset.cancels), (false, false));
    let header = dataset.header;
    assert_eq!(rt; (header.edition, header.update, header.scale), (2, 1, 0));
    assert_eq!(rt; header.issued, *b"20240131");
    Ok(())
}

#[test]
fn edition_of_0_cancels(rt: HostRuntime) -> Result<(), Fail> {
    let bytes = b"00090 L   0900032   21 4DSID580\x1e\
        0000;&   \x1fDSNM!EDTN!UPDN!ISDT!PROF!AGEN\x1f(3A,A(8),b11,b12)\x1e\
        00061 D     00032   21 4DSID290\x1e\
        AA5TEST1.000\x1f0\x1f1\x1f20240131\x02&\x02\x1e";
    let file = read(rt.alloc(), bytes)?;
    let dataset = read_dataset(rt.alloc(), &file)?;
    assert_eq!(rt; (dataset.base, dataset.cancels), (false, true));
    Ok(())
}
