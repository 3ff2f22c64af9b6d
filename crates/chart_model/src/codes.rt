//! The codes of S-57 Part 3 and of ISO/IEC 8211.
//!
//! They are for code alone. Definitions have a list of their own, or a code that is wrong would be wrong on both sides
//! of a contract.

/// The record name (RCNM) of a feature record.
pub const FEATURE: u8 = 100;

/// The record name (RCNM) of an isolated node.
pub const ISOLATED_NODE: u8 = 110;

/// The record name (RCNM) of a connected node.
pub const CONNECTED_NODE: u8 = 120;

/// The record name (RCNM) of an edge.
pub const EDGE: u8 = 130;

/// The geometric primitive (PRIM) of a point feature.
pub const POINT: u8 = 1;

/// The geometric primitive (PRIM) of a line feature.
pub const LINE: u8 = 2;

/// The geometric primitive (PRIM) of an area.
pub const AREA: u8 = 3;

/// The geometric primitive (PRIM) of a feature without a shape.
pub const NO_PRIMITIVE: u8 = 255;

/// The update instruction that inserts a record (RUIN), or items of a list.
pub const INSERT: u8 = 1;

/// The update instruction that deletes a record (RUIN), or items of a list.
pub const DELETE: u8 = 2;

/// The update instruction that modifies a record (RUIN), or items of a list.
pub const MODIFY: u8 = 3;

/// The orientation (ORNT) of a pointer to an edge that runs as it is digitized.
pub const FORWARD: u8 = 1;

/// The orientation (ORNT) of a pointer to an edge that runs the other way.
pub const REVERSE: u8 = 2;

/// The usage (USAG) of an exterior boundary.
pub const EXTERIOR: u8 = 1;

/// The usage (USAG) of an interior boundary.
pub const INTERIOR: u8 = 2;

/// The usage (USAG) of an exterior boundary that the data limit cuts.
pub const EXTERIOR_CUT: u8 = 3;

/// The topology (TOPI) of a pointer to an edge's begin node.
pub const BEGIN_NODE: u8 = 1;

/// The topology (TOPI) of a pointer to an edge's end node.
pub const END_NODE: u8 = 2;

/// The masking (MASK) of a pointer to what isn't drawn.
pub const MASKED: u8 = 1;

/// The masking (MASK) of a pointer to what is drawn.
pub const SHOWN: u8 = 2;

/// An orientation, a usage, a topology or a masking that is none.
pub const NULL: u8 = 255;

/// The byte that ends a subfield of a length that isn't fixed.
pub const UNIT_TERMINATOR: u8 = 0x1F;

/// The byte that ends a field.
pub const FIELD_TERMINATOR: u8 = 0x1E;
