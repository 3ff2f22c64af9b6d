//! The tags of the fields that are read (S-57 Part 3).
//!
//! A cell file is read for such tags alone. A field under another one has to lie inside its record, and else may be
//! anything.

/// Data set identification (clause 7.3.1.1).
pub const DSID: [u8; 4] = *b"DSID";

/// Data set structure information (clause 7.3.1.2).
pub const DSSI: [u8; 4] = *b"DSSI";

/// Data set parameters (clause 7.3.2.1).
pub const DSPM: [u8; 4] = *b"DSPM";

/// Vector record identifier (clause 7.7.1.1).
pub const VRID: [u8; 4] = *b"VRID";

/// Vector record attributes (clause 7.7.1.2).
pub const ATTV: [u8; 4] = *b"ATTV";

/// Vector record pointer control (clause 7.7.1.3).
pub const VRPC: [u8; 4] = *b"VRPC";

/// Vector record pointers (clause 7.7.1.4).
pub const VRPT: [u8; 4] = *b"VRPT";

/// Coordinate control (clause 7.7.1.5).
pub const SGCC: [u8; 4] = *b"SGCC";

/// Two-dimensional coordinates (clause 7.7.1.6).
pub const SG2D: [u8; 4] = *b"SG2D";

/// Three-dimensional coordinates, which are soundings (clause 7.7.1.7).
pub const SG3D: [u8; 4] = *b"SG3D";

/// Feature record identifier (clause 7.6.1).
pub const FRID: [u8; 4] = *b"FRID";

/// Feature object identifier (clause 7.6.2).
pub const FOID: [u8; 4] = *b"FOID";

/// Feature record attributes (clause 7.6.3).
pub const ATTF: [u8; 4] = *b"ATTF";

/// Feature record to feature object pointer control (clause 7.6.5).
pub const FFPC: [u8; 4] = *b"FFPC";

/// Feature record to feature object pointers (clause 7.6.6).
pub const FFPT: [u8; 4] = *b"FFPT";

/// Feature record to spatial record pointer control (clause 7.6.7).
pub const FSPC: [u8; 4] = *b"FSPC";

/// Feature record to spatial record pointers (clause 7.6.8).
pub const FSPT: [u8; 4] = *b"FSPT";
