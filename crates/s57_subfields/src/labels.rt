//! The labels of the subfields that are looked at (S-57 Part 3).
//!
//! A label says which subfield it is only with the tag of its field: several stand in two fields, and are one constant
//! for both. A field may have more labels than these; what stands under them isn't looked at.

/// The name of the data set (DSID).
pub const DSNM: [u8; 4] = *b"DSNM";

/// The edition number (DSID).
pub const EDTN: [u8; 4] = *b"EDTN";

/// The update number (DSID).
pub const UPDN: [u8; 4] = *b"UPDN";

/// The issue date (DSID).
pub const ISDT: [u8; 4] = *b"ISDT";

/// The application profile (DSID).
pub const PROF: [u8; 4] = *b"PROF";

/// The producing agency (DSID and FOID).
pub const AGEN: [u8; 4] = *b"AGEN";

/// The lexical level of ATTF (DSSI).
pub const AALL: [u8; 4] = *b"AALL";

/// The denominator of the compilation scale (DSPM).
pub const CSCL: [u8; 4] = *b"CSCL";

/// The units of depth (DSPM).
pub const DUNI: [u8; 4] = *b"DUNI";

/// The units of coordinates (DSPM).
pub const COUN: [u8; 4] = *b"COUN";

/// The factor of coordinates (DSPM).
pub const COMF: [u8; 4] = *b"COMF";

/// The factor of soundings (DSPM).
pub const SOMF: [u8; 4] = *b"SOMF";

/// The kind of a record (VRID and FRID).
pub const RCNM: [u8; 4] = *b"RCNM";

/// The number of a record (VRID and FRID).
pub const RCID: [u8; 4] = *b"RCID";

/// The version of a record (VRID and FRID).
pub const RVER: [u8; 4] = *b"RVER";

/// The update instruction of a record (VRID and FRID).
pub const RUIN: [u8; 4] = *b"RUIN";

/// The code of an attribute (ATTV and ATTF).
pub const ATTL: [u8; 4] = *b"ATTL";

/// The value of an attribute (ATTV and ATTF).
pub const ATVL: [u8; 4] = *b"ATVL";

/// The update instruction of pointers (VRPC).
pub const VPUI: [u8; 4] = *b"VPUI";

/// The index of the first pointer (VRPC).
pub const VPIX: [u8; 4] = *b"VPIX";

/// The number of pointers (VRPC).
pub const NVPT: [u8; 4] = *b"NVPT";

/// The name of the record that is pointed to (VRPT and FSPT).
pub const NAME: [u8; 4] = *b"NAME";

/// The orientation (VRPT and FSPT).
pub const ORNT: [u8; 4] = *b"ORNT";

/// The usage indicator (VRPT and FSPT).
pub const USAG: [u8; 4] = *b"USAG";

/// The topology indicator (VRPT).
pub const TOPI: [u8; 4] = *b"TOPI";

/// The masking indicator (VRPT and FSPT).
pub const MASK: [u8; 4] = *b"MASK";

/// The update instruction of coordinates (SGCC).
pub const CCUI: [u8; 4] = *b"CCUI";

/// The index of the first coordinate (SGCC).
pub const CCIX: [u8; 4] = *b"CCIX";

/// The number of coordinates (SGCC).
pub const CCNC: [u8; 4] = *b"CCNC";

/// The latitude (SG2D and SG3D).
pub const YCOO: [u8; 4] = *b"YCOO";

/// The longitude (SG2D and SG3D).
pub const XCOO: [u8; 4] = *b"XCOO";

/// The depth (SG3D).
pub const VE3D: [u8; 4] = *b"VE3D";

/// The geometric primitive (FRID).
pub const PRIM: [u8; 4] = *b"PRIM";

/// The group (FRID).
pub const GRUP: [u8; 4] = *b"GRUP";

/// The code of the object class (FRID).
pub const OBJL: [u8; 4] = *b"OBJL";

/// The number of the feature object (FOID).
pub const FIDN: [u8; 4] = *b"FIDN";

/// The subdivision of the feature object (FOID).
pub const FIDS: [u8; 4] = *b"FIDS";

/// The update instruction of pointers (FFPC).
pub const FFUI: [u8; 4] = *b"FFUI";

/// The index of the first pointer (FFPC).
pub const FFIX: [u8; 4] = *b"FFIX";

/// The number of pointers (FFPC).
pub const NFPT: [u8; 4] = *b"NFPT";

/// The long name of the feature object that is pointed to (FFPT).
pub const LNAM: [u8; 4] = *b"LNAM";

/// The relationship indicator (FFPT).
pub const RIND: [u8; 4] = *b"RIND";

/// The update instruction of pointers (FSPC).
pub const FSUI: [u8; 4] = *b"FSUI";

/// The index of the first pointer (FSPC).
pub const FSIX: [u8; 4] = *b"FSIX";

/// The number of pointers (FSPC).
pub const NSPT: [u8; 4] = *b"NSPT";
