//! The data descriptive record of a written file (ISO/IEC 8211, data descriptive record).
//!
//! It is the same bytes for every cell: it describes each field that a written file may have, also those that this cell
//! doesn't need.

ghost use Rattle.std.specs.Prelude.{◌≡◌, ◌++◌, OnOk};
ghost use Rattle.cell_bytes.specs.Descriptive.{descriptive_record};

use chart_model::Octets;
use std::alloc::AllocError;

/// The record: its leader, an entry for each field, and each field with its name, its labels and its formats.
static DESCRIPTIVE_RECORD: [u8; 1761] = *b"017613LE1 0900277 ! 5504\
    00010004700000\
    DSID0016500047\
    DSSI0011300212\
    DSPM0013000325\
    VRID0007800455\
    ATTV0005800533\
    VRPC0007100591\
    VRPT0007600662\
    SGCC0006000738\
    SG2D0004800798\
    SG3D0005300846\
    FRID0010000899\
    FOID0007000999\
    ATTF0005901069\
    FFPC0009001128\
    FFPT0008601218\
    FSPC0009001304\
    FSPT0009001394\x1E\
    0500;&   ISO/IEC 8211 Record Identifier\x1F\
    \x1F(b12)\x1E\
    1600;&   Data set identification field\x1F\
    RCNM!RCID!EXPP!INTU!DSNM!EDTN!UPDN!UADT!ISDT!STED!PRSP!PSDN!PRED!PROF!AGEN!COMT\x1F\
    (b11,b14,2b11,3A,2A(8),R(4),b11,2A,b11,b12,A)\x1E\
    1600;&   Data set structure information field\x1F\
    DSTR!AALL!NALL!NOMR!NOCR!NOGR!NOLR!NOIN!NOCN!NOED!NOFA\x1F(3b11,8b14)\x1E\
    1600;&   Data set parameter field\x1F\
    RCNM!RCID!HDAT!VDAT!SDAT!CSCL!DUNI!HUNI!PUNI!COUN!COMF!SOMF!COMT\x1F(b11,b14,3b11,b14,4b11,2b14,A)\x1E\
    1600;&   Vector record identifier field\x1F\
    RCNM!RCID!RVER!RUIN\x1F(b11,b14,b12,b11)\x1E\
    2600;&   Vector record attribute field\x1F\
    *ATTL!ATVL\x1F(b12,A)\x1E\
    1600;&   Vector record pointer control field\x1F\
    VPUI!VPIX!NVPT\x1F(b11,2b12)\x1E\
    2600;&   Vector record pointer field\x1F\
    *NAME!ORNT!USAG!TOPI!MASK\x1F(B(40),4b11)\x1E\
    1600;&   Coordinate control field\x1F\
    CCUI!CCIX!CCNC\x1F(b11,2b12)\x1E\
    2600;&   2-D coordinate field\x1F\
    *YCOO!XCOO\x1F(2b24)\x1E\
    2600;&   3-D coordinate field\x1F\
    *YCOO!XCOO!VE3D\x1F(3b24)\x1E\
    1600;&   Feature record identifier field\x1F\
    RCNM!RCID!PRIM!GRUP!OBJL!RVER!RUIN\x1F(b11,b14,2b11,2b12,b11)\x1E\
    1600;&   Feature object identifier field\x1F\
    AGEN!FIDN!FIDS\x1F(b12,b14,b12)\x1E\
    2600;&   Feature record attribute field\x1F\
    *ATTL!ATVL\x1F(b12,A)\x1E\
    1600;&   Feature record to feature object pointer control field\x1F\
    FFUI!FFIX!NFPT\x1F(b11,2b12)\x1E\
    2600;&   Feature record to feature object pointer field\x1F\
    *LNAM!RIND!COMT\x1F(B(64),b11,A)\x1E\
    1600;&   Feature record to spatial record pointer control field\x1F\
    FSUI!FSIX!NSPT\x1F(b11,2b12)\x1E\
    2600;&   Feature record to spatial record pointer field\x1F\
    *NAME!ORNT!USAG!MASK\x1F(B(40),3b11)\x1E";

/// Adds the data descriptive record.
pub(crate) fn put_descriptive_record(out: &mut Octets) -> Result<(), AllocError>
    ensures { OnOk result (out.new ≡ out.old ++ descriptive_record) }
{
    out.extend_from_slice(&DESCRIPTIVE_RECORD)
}
