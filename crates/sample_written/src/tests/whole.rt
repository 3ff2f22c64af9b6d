//! A whole file.
//!
//! Every byte of the file stands here, its data descriptive record too, so that what other programs are given doesn't
//! change unseen. The chart has a record of each kind.

use cell_writer::write_cell;
use chart_model::Cell;
use sample_rows::{Foid, Row, chart, feature, vector};
use std::alloc::Global;
use std::test::Fail;

/// A chart with an isolated node, soundings, two connected nodes, three edges and four features.
const ROWS: [Row; 11] = [
    vector!(110, 1, [], [(150, 50, 0)]),
    Row {
        deep: true,
        depths: &[-12, 99, 305, 315, 1230],
        ..vector!(
            110,
            2,
            [],
            [
                (20, 20, 0),
                (30, 20, 0),
                (40, 20, 0),
                (150, 20, 0),
                (160, 20, 0)
            ]
        )
    },
    vector!(120, 1, [], [(100, 0, 0)]),
    vector!(120, 2, [], [(100, 100, 0)]),
    vector!(130, 1, [(120, 1, 1), (120, 2, 2)], []),
    vector!(130, 2, [(120, 2, 1), (120, 1, 2)], [(0, 100, 0), (0, 0, 0)]),
    vector!(
        130,
        3,
        [(120, 2, 1), (120, 1, 2)],
        [(200, 100, 0), (200, 0, 0)]
    ),
    Row {
        grup: 1,
        foid: Some(Foid {
            agen: 550,
            fidn: 1,
            fids: 1,
        }),
        attrs: &[(87, b"5"), (88, b"10")],
        marks: &[(1, 255), (1, 255)],
        ..feature!(3, 1, [(130, 1, 1), (130, 2, 1)])
    },
    Row {
        grup: 1,
        foid: Some(Foid {
            agen: 550,
            fidn: 2,
            fids: 1,
        }),
        attrs: &[(87, b"20"), (88, b"30")],
        marks: &[(1, 255), (1, 255)],
        ..feature!(3, 2, [(130, 1, 2), (130, 3, 2)])
    },
    Row {
        class: 159,
        foid: Some(Foid {
            agen: 550,
            fidn: 3,
            fids: 1,
        }),
        attrs: &[(179, b"15"), (187, b"3")],
        ..feature!(1, 3, [(110, 1, 255)])
    },
    Row {
        class: 129,
        foid: Some(Foid {
            agen: 550,
            fidn: 4,
            fids: 1,
        }),
        ..feature!(1, 4, [(110, 2, 255)])
    },
];

/// The file of that chart.
static FILE: &[u8] = b"017613LE1 0900277 ! 5504\
    00010004700000DSID0016500047DSSI0011300212DSPM0013000325VRID0007800455ATTV0005800533VRPC0007100591VRPT000760\
    0662SGCC0006000738SG2D0004800798SG3D0005300846FRID0010000899FOID0007000999ATTF0005901069FFPC0009001128FFPT00\
    08601218FSPC0009001304FSPT0009001394\x1E\
    0500;&   ISO/IEC 8211 Record Identifier\x1F\
    \x1F\
    (b12)\x1E\
    1600;&   Data set identification field\x1F\
    RCNM!RCID!EXPP!INTU!DSNM!EDTN!UPDN!UADT!ISDT!STED!PRSP!PSDN!PRED!PROF!AGEN!COMT\x1F\
    (b11,b14,2b11,3A,2A(8),R(4),b11,2A,b11,b12,A)\x1E\
    1600;&   Data set structure information field\x1F\
    DSTR!AALL!NALL!NOMR!NOCR!NOGR!NOLR!NOIN!NOCN!NOED!NOFA\x1F\
    (3b11,8b14)\x1E\
    1600;&   Data set parameter field\x1F\
    RCNM!RCID!HDAT!VDAT!SDAT!CSCL!DUNI!HUNI!PUNI!COUN!COMF!SOMF!COMT\x1F\
    (b11,b14,3b11,b14,4b11,2b14,A)\x1E\
    1600;&   Vector record identifier field\x1F\
    RCNM!RCID!RVER!RUIN\x1F\
    (b11,b14,b12,b11)\x1E\
    2600;&   Vector record attribute field\x1F\
    *ATTL!ATVL\x1F\
    (b12,A)\x1E\
    1600;&   Vector record pointer control field\x1F\
    VPUI!VPIX!NVPT\x1F\
    (b11,2b12)\x1E\
    2600;&   Vector record pointer field\x1F\
    *NAME!ORNT!USAG!TOPI!MASK\x1F\
    (B(40),4b11)\x1E\
    1600;&   Coordinate control field\x1F\
    CCUI!CCIX!CCNC\x1F\
    (b11,2b12)\x1E\
    2600;&   2-D coordinate field\x1F\
    *YCOO!XCOO\x1F\
    (2b24)\x1E\
    2600;&   3-D coordinate field\x1F\
    *YCOO!XCOO!VE3D\x1F\
    (3b24)\x1E\
    1600;&   Feature record identifier field\x1F\
    RCNM!RCID!PRIM!GRUP!OBJL!RVER!RUIN\x1F\
    (b11,b14,2b11,2b12,b11)\x1E\
    1600;&   Feature object identifier field\x1F\
    AGEN!FIDN!FIDS\x1F\
    (b12,b14,b12)\x1E\
    2600;&   Feature record attribute field\x1F\
    *ATTL!ATVL\x1F\
    (b12,A)\x1E\
    1600;&   Feature record to feature object pointer control field\x1F\
    FFUI!FFIX!NFPT\x1F\
    (b11,2b12)\x1E\
    2600;&   Feature record to feature object pointer field\x1F\
    *LNAM!RIND!COMT\x1F\
    (B(64),b11,A)\x1E\
    1600;&   Feature record to spatial record pointer control field\x1F\
    FSUI!FSIX!NSPT\x1F\
    (b11,2b12)\x1E\
    2600;&   Feature record to spatial record pointer field\x1F\
    *NAME!ORNT!USAG!MASK\x1F\
    (B(40),3b11)\x1E\
    00161 D     00067   5504\
    00010000300000DSID0005500003DSSI0003600058\x1E\
    \x01\x00\x1E\
    \x0A\x01\x00\x00\x00\x01\x05AA5TEST1.000\x1F1\x1F0\x1F202401012024010103.1\x01\x1F2.0\x1F\x01&\x02\x1F\x1E\
    \x02\x01\x00\x00\x00\x00\x00\x00\x00\x00\x00\x04\x00\x00\x00\x00\x00\x00\x00\x02\x00\x00\x00\x02\x00\x00\x00\
    \x03\x00\x00\x00\x00\x00\x00\x00\x1E\
    00082 D     00053   5504\
    00010000300000DSPM0002600003\x1E\
    \x02\x00\x1E\
    \x14\x01\x00\x00\x00\x02\x01\x01\x10'\x00\x00\x01\x01\x01\x01\x80\x96\x98\x00\x0A\x00\x00\x00\x1F\x1E\
    00088 D     00067   5504\
    00010000300000VRID0000900003SG2D0000900012\x1E\
    \x03\x00\x1E\
    n\x01\x00\x00\x00\x01\x00\x01\x1E\
    2\x00\x00\x00\x96\x00\x00\x00\x1E\
    00140 D     00067   5504\
    00010000300000VRID0000900003SG3D0006100012\x1E\
    \x04\x00\x1E\
    n\x02\x00\x00\x00\x01\x00\x01\x1E\
    \x14\x00\x00\x00\x14\x00\x00\x00\xF4\xFF\xFF\xFF\x14\x00\x00\x00\x1E\x00\x00\x00c\x00\x00\x00\x14\x00\x00\
    \x00(\x00\x00\x001\x01\x00\x00\x14\x00\x00\x00\x96\x00\x00\x00;\x01\x00\x00\x14\x00\x00\x00\xA0\x00\x00\x00\
    \xCE\x04\x00\x00\x1E\
    00088 D     00067   5504\
    00010000300000VRID0000900003SG2D0000900012\x1E\
    \x05\x00\x1E\
    x\x01\x00\x00\x00\x01\x00\x01\x1E\
    \x00\x00\x00\x00d\x00\x00\x00\x1E\
    00088 D     00067   5504\
    00010000300000VRID0000900003SG2D0000900012\x1E\
    \x06\x00\x1E\
    x\x02\x00\x00\x00\x01\x00\x01\x1E\
    d\x00\x00\x00d\x00\x00\x00\x1E\
    00098 D     00067   5504\
    00010000300000VRID0000900003VRPT0001900012\x1E\
    \x07\x00\x1E\
    \x82\x01\x00\x00\x00\x01\x00\x01\x1E\
    x\x01\x00\x00\x00\xFF\xFF\x01\xFFx\x02\x00\x00\x00\xFF\xFF\x02\xFF\x1E\
    00129 D     00081   5504\
    00010000300000VRID0000900003VRPT0001900012SG2D0001700031\x1E\
    \x08\x00\x1E\
    \x82\x02\x00\x00\x00\x01\x00\x01\x1E\
    x\x02\x00\x00\x00\xFF\xFF\x01\xFFx\x01\x00\x00\x00\xFF\xFF\x02\xFF\x1E\
    d\x00\x00\x00\x00\x00\x00\x00\x00\x00\x00\x00\x00\x00\x00\x00\x1E\
    00129 D     00081   5504\
    00010000300000VRID0000900003VRPT0001900012SG2D0001700031\x1E\
    \x09\x00\x1E\
    \x82\x03\x00\x00\x00\x01\x00\x01\x1E\
    x\x02\x00\x00\x00\xFF\xFF\x01\xFFx\x01\x00\x00\x00\xFF\xFF\x02\xFF\x1E\
    d\x00\x00\x00\xC8\x00\x00\x00\x00\x00\x00\x00\xC8\x00\x00\x00\x1E\
    00147 D     00095   5504\
    00010000300000FRID0001300003FOID0000900016ATTF0001000025FSPT0001700035\x1E\
    \x0A\x00\x1E\
    d\x01\x00\x00\x00\x03\x01*\x00\x01\x00\x01\x1E\
    &\x02\x01\x00\x00\x00\x01\x00\x1E\
    W\x005\x1FX\x0010\x1F\x1E\
    \x82\x01\x00\x00\x00\x01\x01\xFF\x82\x02\x00\x00\x00\x01\x01\xFF\x1E\
    00148 D     00095   5504\
    00010000300000FRID0001300003FOID0000900016ATTF0001100025FSPT0001700036\x1E\
    \x0B\x00\x1E\
    d\x02\x00\x00\x00\x03\x01*\x00\x01\x00\x01\x1E\
    &\x02\x02\x00\x00\x00\x01\x00\x1E\
    W\x0020\x1FX\x0030\x1F\x1E\
    \x82\x01\x00\x00\x00\x02\x01\xFF\x82\x03\x00\x00\x00\x02\x01\xFF\x1E\
    00139 D     00095   5504\
    00010000300000FRID0001300003FOID0000900016ATTF0001000025FSPT0000900035\x1E\
    \x0C\x00\x1E\
    d\x03\x00\x00\x00\x01\x02\x9F\x00\x01\x00\x01\x1E\
    &\x02\x03\x00\x00\x00\x01\x00\x1E\
    \xB3\x0015\x1F\xBB\x003\x1F\x1E\
    n\x01\x00\x00\x00\xFF\xFF\xFF\x1E\
    00115 D     00081   5504\
    00010000300000FRID0001300003FOID0000900016FSPT0000900025\x1E\
    \x0D\x00\x1E\
    d\x04\x00\x00\x00\x01\x02\x81\x00\x01\x00\x01\x1E\
    &\x02\x04\x00\x00\x00\x01\x00\x1E\
    n\x02\x00\x00\x00\xFF\xFF\xFF\x1E";

/// That chart, with its general information.
fn cell(alloc: Global) -> Result<Cell, Fail> {
    let mut cell = chart(alloc, &ROWS)?;
    let issued = *b"20240101";
    cell.header.issued = issued;
    cell.header.agency = 550;
    cell.header.scale = 10_000;
    Ok(cell)
}

#[test]
fn the_file_of_a_chart(rt: HostRuntime) -> Result<(), Fail> {
    let file = write_cell(rt.alloc(), &cell(rt.alloc())?)?;
    assert_eq!(rt; file.as_slice().len(), FILE.len());
    assert!(rt; file.as_slice() == FILE);
    Ok(())
}
