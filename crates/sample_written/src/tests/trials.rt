//! Cells and updates that are made for trials.
//!
//! Benches and other tests count on what these cells hold, so their bytes are settled here. An update changes every
//! thirtieth area: of 32 areas two.

use cell_writer::{make_cell, make_update, write_cell};
use std::test::Fail;

#[test]
fn a_cell_of_one_area(rt: HostRuntime) -> Result<(), Fail> {
    let cell = make_cell(rt.alloc(), 1)?;
    let file = write_cell(rt.alloc(), &cell)?;
    let (_, records) = file.as_slice().split_at_checked(1761).ok_or("records")?;
    let expected = b"00161 D     00067   550400010000300000DSID0005500003DSSI0003600058\x1e\
        \x01\0\x1e\
        \x0a\x01\0\0\0\x01\x05MK000001.000\x1f1\x1f0\x1f202401012024010103.1\x01\x1f2.0\x1f\x01\x26\x02\x1f\x1e\
        \x02\x01\0\0\0\0\0\0\0\0\0\x01\0\0\0\0\0\0\0\0\0\0\0\x01\0\0\0\x01\0\0\0\0\0\0\0\x1e\
        00082 D     00053   550400010000300000DSPM0002600003\x1e\
        \x02\0\x1e\
        \x14\x01\0\0\0\x02\x01\x01\x10\x27\0\0\x01\x01\x01\x01\x80\x96\x98\0\x0a\0\0\0\x1f\x1e\
        00088 D     00067   550400010000300000VRID0000900003SG2D0000900012\x1e\
        \x03\0\x1e\
        x\x01\0\0\0\x01\0\x01\x1e\
        \0\0\0\0\xe8\x03\0\0\x1e\
        00137 D     00081   550400010000300000VRID0000900003VRPT0001900012SG2D0002500031\x1e\
        \x04\0\x1e\
        \x82\x01\0\0\0\x01\0\x01\x1e\
        x\x01\0\0\0\xff\xff\x01\xffx\x01\0\0\0\xff\xff\x02\xff\x1e\
        \0\0\0\0\x6c\x07\0\0\x84\x03\0\0\x6c\x07\0\0\x84\x03\0\0\xe8\x03\0\0\x1e\
        00139 D     00095   550400010000300000FRID0001300003FOID0000900016ATTF0001000025FSPT0000900035\x1e\
        \x05\0\x1e\
        d\x01\0\0\0\x03\x01*\0\x01\0\x01\x1e\
        \x26\x02\x01\0\0\0\x01\0\x1e\
        W\x001\x1fX\x0011\x1f\x1e\
        \x82\x01\0\0\0\x01\x01\xff\x1e";
    assert!(rt; records == expected.as_slice());
    Ok(())
}

#[test]
fn an_update_of_two_areas(rt: HostRuntime) -> Result<(), Fail> {
    let file = make_update(rt.alloc(), 32, 61)?;
    let (_, records) = file.as_slice().split_at_checked(1761).ok_or("records")?;
    let expected = b"00112 D     00053   550400010000300000DSID0005600003\x1e\
        \x01\0\x1e\
        \x0a\x01\0\0\0\x02\x05MK000032.061\x1f1\x1f61\x1f202401012024010103.1\x01\x1f2.0\x1f\x02\x26\x02\x1f\x1e\
        00089 D     00067   550400010000300000FRID0001300003ATTF0000600016\x1e\
        \x02\0\x1e\
        d\x01\0\0\0\x03\x01*\0\x04\0\x03\x1e\
        W\x0011\x1f\x1e\
        00089 D     00067   550400010000300000FRID0001300003ATTF0000600016\x1e\
        \x03\0\x1e\
        d\x1f\0\0\0\x03\x01*\0\x04\0\x03\x1e\
        W\x0011\x1f\x1e";
    assert!(rt; records == expected.as_slice());
    Ok(())
}
