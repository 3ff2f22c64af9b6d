//! Laws of the definitions and of the constants.
//!
//! The definitions spell tags and labels again, so that a constant that is wrong shows here.

ghost use Rattle.std.specs.Prelude.{◌≡◌, List, codes};
ghost use Rattle.std.specs.List.{AllByRecursion};
ghost use Rattle.iso8211_formats.specs.Layout.{Layout, IsLayout};
ghost use Rattle.iso8211_records.specs.declared.value.Value.{Value as RawValue};
ghost use Rattle.iso8211_records.specs.Kinds.{FitsLayout};
ghost use Rattle.s57_subfields.specs.Groups.{AreGrouped, GroupedField};

use crate::labels::{
    AALL, AGEN, ATTL, ATVL, CCIX, CCNC, CCUI, COMF, COUN, CSCL, DSNM, DUNI, EDTN, FFIX, FFUI, FIDN,
    FIDS, FSIX, FSUI, GRUP, ISDT, LNAM, MASK, NAME, NFPT, NSPT, NVPT, OBJL, ORNT, PRIM, PROF, RCID,
    RCNM, RIND, RUIN, RVER, SOMF, TOPI, UPDN, USAG, VE3D, VPIX, VPUI, XCOO, YCOO,
};
use crate::tags::{
    ATTF, ATTV, DSID, DSPM, DSSI, FFPC, FFPT, FOID, FRID, FSPC, FSPT, SG2D, SG3D, SGCC, VRID, VRPC,
    VRPT,
};

/// The fields that a file is read as have whole groups.
pub fn groups_are_whole()
    ensures { (layout : Layout) (fields : List (List RawValue)) → IsLayout layout →
        AllByRecursion (FitsLayout layout) fields →
        (parts : List GroupedField) × AreGrouped layout parts fields }
{}

/// The tags are those of the standard.
pub fn tags_are_spelled()
    ensures dsid { DSID ≡ codes "DSID" }
    ensures dssi { DSSI ≡ codes "DSSI" }
    ensures dspm { DSPM ≡ codes "DSPM" }
    ensures vrid { VRID ≡ codes "VRID" }
    ensures attv { ATTV ≡ codes "ATTV" }
    ensures vrpc { VRPC ≡ codes "VRPC" }
    ensures vrpt { VRPT ≡ codes "VRPT" }
    ensures sgcc { SGCC ≡ codes "SGCC" }
    ensures sg2d { SG2D ≡ codes "SG2D" }
    ensures sg3d { SG3D ≡ codes "SG3D" }
    ensures frid { FRID ≡ codes "FRID" }
    ensures foid { FOID ≡ codes "FOID" }
    ensures attf { ATTF ≡ codes "ATTF" }
    ensures ffpc { FFPC ≡ codes "FFPC" }
    ensures ffpt { FFPT ≡ codes "FFPT" }
    ensures fspc { FSPC ≡ codes "FSPC" }
    ensures fspt { FSPT ≡ codes "FSPT" }
{}

/// The labels are those of the standard.
pub fn labels_are_spelled()
    ensures dsnm { DSNM ≡ codes "DSNM" }
    ensures edtn { EDTN ≡ codes "EDTN" }
    ensures updn { UPDN ≡ codes "UPDN" }
    ensures isdt { ISDT ≡ codes "ISDT" }
    ensures prof { PROF ≡ codes "PROF" }
    ensures agen { AGEN ≡ codes "AGEN" }
    ensures aall { AALL ≡ codes "AALL" }
    ensures cscl { CSCL ≡ codes "CSCL" }
    ensures duni { DUNI ≡ codes "DUNI" }
    ensures coun { COUN ≡ codes "COUN" }
    ensures comf { COMF ≡ codes "COMF" }
    ensures somf { SOMF ≡ codes "SOMF" }
    ensures rcnm { RCNM ≡ codes "RCNM" }
    ensures rcid { RCID ≡ codes "RCID" }
    ensures rver { RVER ≡ codes "RVER" }
    ensures ruin { RUIN ≡ codes "RUIN" }
    ensures attl { ATTL ≡ codes "ATTL" }
    ensures atvl { ATVL ≡ codes "ATVL" }
    ensures vpui { VPUI ≡ codes "VPUI" }
    ensures vpix { VPIX ≡ codes "VPIX" }
    ensures nvpt { NVPT ≡ codes "NVPT" }
    ensures name { NAME ≡ codes "NAME" }
    ensures ornt { ORNT ≡ codes "ORNT" }
    ensures usag { USAG ≡ codes "USAG" }
    ensures topi { TOPI ≡ codes "TOPI" }
    ensures mask { MASK ≡ codes "MASK" }
    ensures ccui { CCUI ≡ codes "CCUI" }
    ensures ccix { CCIX ≡ codes "CCIX" }
    ensures ccnc { CCNC ≡ codes "CCNC" }
    ensures ycoo { YCOO ≡ codes "YCOO" }
    ensures xcoo { XCOO ≡ codes "XCOO" }
    ensures ve3d { VE3D ≡ codes "VE3D" }
    ensures prim { PRIM ≡ codes "PRIM" }
    ensures grup { GRUP ≡ codes "GRUP" }
    ensures objl { OBJL ≡ codes "OBJL" }
    ensures fidn { FIDN ≡ codes "FIDN" }
    ensures fids { FIDS ≡ codes "FIDS" }
    ensures ffui { FFUI ≡ codes "FFUI" }
    ensures ffix { FFIX ≡ codes "FFIX" }
    ensures nfpt { NFPT ≡ codes "NFPT" }
    ensures lnam { LNAM ≡ codes "LNAM" }
    ensures rind { RIND ≡ codes "RIND" }
    ensures fsui { FSUI ≡ codes "FSUI" }
    ensures fsix { FSIX ≡ codes "FSIX" }
    ensures nspt { NSPT ≡ codes "NSPT" }
{}
