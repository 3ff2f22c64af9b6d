//! What the records of an update say.
//!
//! Each file is an update with one or two records. What is asked of a change is what its record was chosen for: the
//! version of a deletion, the control of an edge's coordinates, a sounding in centimetres, the identifier of a feature.

use super::read;
use chart_model::{Control, Coord, Foid, Name};
use s57_records::read_dataset;
use std::test::Fail;

#[test]
fn deletions_of_a_node_and_a_feature(rt: HostRuntime) -> Result<(), Fail> {
    let bytes = b"00227 L   0900052   23 4DSID58000VRID48058FRID69106\x1e\
        0000;&   \x1fDSNM!EDTN!UPDN!ISDT!PROF!AGEN\x1f(3A,A(8),b11,b12)\x1e\
        0000;&   \x1fRCNM!RCID!RVER!RUIN\x1f(b11,b14,b12,b11)\x1e\
        0000;&   \x1fRCNM!RCID!PRIM!GRUP!OBJL!RVER!RUIN\x1f(b11,b14,2b11,2b12,b11)\x1e\
        00061 D     00032   21 4DSID290\x1e\
        AA5TEST1.000\x1f2\x1f1\x1f20240131\x02&\x02\x1e\
        00040 D     00031   11 4VRID90\x1e\
        n\x07\0\0\0\x04\0\x02\x1e\
        00045 D     00032   21 4FRID130\x1e\
        d\x09\0\0\0\x03\x02.\x01\x05\0\x02\x1e";
    let file = read(rt.alloc(), bytes)?;
    let dataset = read_dataset(rt.alloc(), &file)?;
    let [node, feature] = dataset.changes.as_slice() else {
        return Err(Fail::from("two changes"));
    };
    assert_eq!(rt; node.target, Name { rcnm: 110, rcid: 7 });
    assert_eq!(rt; (node.ruin, node.version), (2, 4));
    assert_eq!(rt; feature.target, Name { rcnm: 100, rcid: 9 });
    assert_eq!(rt; (feature.ruin, feature.version), (2, 5));
    Ok(())
}

#[test]
fn modification_of_an_edge(rt: HostRuntime) -> Result<(), Fail> {
    let bytes = b"00194 L   0900052   23 4DSID58000VRID48058SGCC36106\x1e\
        0000;&   \x1fDSNM!EDTN!UPDN!ISDT!PROF!AGEN\x1f(3A,A(8),b11,b12)\x1e\
        0000;&   \x1fRCNM!RCID!RVER!RUIN\x1f(b11,b14,b12,b11)\x1e\
        0000;&   \x1fCCUI!CCIX!CCNC\x1f(b11,2b12)\x1e\
        00061 D     00032   21 4DSID290\x1e\
        AA5TEST1.000\x1f2\x1f1\x1f20240131\x02&\x02\x1e\
        00052 D     00037   11 4VRID90SGCC69\x1e\
        \x82\x07\0\0\0\x04\0\x03\x1e\
        \x02\x03\0\x01\0\x1e";
    let control = Control {
        instruction: 2,
        index: 3,
        count: 1,
    };
    let file = read(rt.alloc(), bytes)?;
    let dataset = read_dataset(rt.alloc(), &file)?;
    let change = dataset.changes.as_slice().first().ok_or("a change")?;
    assert_eq!(rt; change.coord_edit, Some(control));
    Ok(())
}

#[test]
fn insertion_of_a_sounding(rt: HostRuntime) -> Result<(), Fail> {
    let bytes = b"00191 L   0900052   23 4DSID58000VRID48058SG3D33106\x1e\
        0000;&   \x1fDSNM!EDTN!UPDN!ISDT!PROF!AGEN\x1f(3A,A(8),b11,b12)\x1e\
        0000;&   \x1fRCNM!RCID!RVER!RUIN\x1f(b11,b14,b12,b11)\x1e\
        0000;&   \x1f*YCOO!XCOO!VE3D\x1f(3b24)\x1e\
        00061 D     00032   21 4DSID290\x1e\
        AA5TEST1.000\x1f2\x1f1\x1f20240131\x02&\x02\x1e\
        00061 D     00039   21 4VRID090SG3D139\x1e\
        n\x07\0\0\0\x01\0\x01\x1e\
        \x01\0\0\0\x02\0\0\0\xf4\xff\xff\xff\x1e";
    let sounding = Coord {
        x: 2,
        y: 1,
        z: Some(-120),
    };
    let file = read(rt.alloc(), bytes)?;
    let dataset = read_dataset(rt.alloc(), &file)?;
    let change = dataset.changes.as_slice().first().ok_or("a change")?;
    assert_eq!(rt; change.coords.as_slice(), [sounding].as_slice());
    Ok(())
}

#[test]
fn insertion_of_a_feature(rt: HostRuntime) -> Result<(), Fail> {
    let bytes = b"00218 L   0900052   23 4DSID58000FRID69058FOID39127\x1e\
        0000;&   \x1fDSNM!EDTN!UPDN!ISDT!PROF!AGEN\x1f(3A,A(8),b11,b12)\x1e\
        0000;&   \x1fRCNM!RCID!PRIM!GRUP!OBJL!RVER!RUIN\x1f(b11,b14,2b11,2b12,b11)\x1e\
        0000;&   \x1fAGEN!FIDN!FIDS\x1f(b12,b14,b12)\x1e\
        00061 D     00032   21 4DSID290\x1e\
        AA5TEST1.000\x1f2\x1f1\x1f20240131\x02&\x02\x1e\
        00063 D     00041   22 4FRID1300FOID0913\x1e\
        d\x07\0\0\0\x03\x02.\x01\x01\0\x01\x1e\
        &\x02\x07\0\0\0\x01\0\x1e";
    let foid = Foid {
        agen: 550,
        fidn: 7,
        fids: 1,
    };
    let file = read(rt.alloc(), bytes)?;
    let dataset = read_dataset(rt.alloc(), &file)?;
    let change = dataset.changes.as_slice().first().ok_or("a change")?;
    assert_eq!(rt; (change.prim, change.grup, change.class), (3, 2, 302));
    assert_eq!(rt; change.foid, Some(foid));
    Ok(())
}
