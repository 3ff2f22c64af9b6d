//! Codes of the S-57 object catalogue (S-57 Appendix A): classes, attributes, and values of attributes.
//!
//! Classes and attributes are numbered apart: 42 is a depth area as a class, and the category of an obstruction as an
//! attribute. The values of attributes are texts in a chart, so they stand here as bytes.

/// The class of a depth area.
pub const DEPARE: u16 = 42;

/// The class of a dredged area.
pub const DRGARE: u16 = 46;

/// The class of an obstruction.
pub const OBSTRN: u16 = 86;

/// The class of an underwater rock.
pub const UWTROC: u16 = 153;

/// The class of a wreck.
pub const WRECKS: u16 = 159;

/// The attribute category of obstruction.
pub const CATOBS: u16 = 42;

/// The attribute category of wreck.
pub const CATWRK: u16 = 71;

/// The attribute depth range value 1: the least depth of an area, in metres.
pub const DRVAL1: u16 = 87;

/// The attribute depth range value 2: the greatest depth of an area, in metres.
pub const DRVAL2: u16 = 88;

/// The attribute exposition of sounding: whether a depth is within the range of the depths around it.
pub const EXPSOU: u16 = 93;

/// The attribute value of depth contour, in metres.
pub const VALDCO: u16 = 174;

/// The attribute value of sounding, in metres.
pub const VALSOU: u16 = 179;

/// The attribute water level effect.
pub const WATLEV: u16 = 187;

/// The category of wreck (CATWRK) non-dangerous.
pub const NON_DANGEROUS_WRECK: &[u8] = b"1";

/// The category of wreck (CATWRK) dangerous.
pub const DANGEROUS_WRECK: &[u8] = b"2";

/// The category of wreck (CATWRK) that shows a mast.
pub const WRECK_WITH_MAST: &[u8] = b"4";

/// The category of wreck (CATWRK) that shows a part of its hull.
pub const WRECK_WITH_HULL: &[u8] = b"5";

/// The category of obstruction (CATOBS) foul area.
pub const FOUL_AREA: &[u8] = b"6";

/// The water level effect (WATLEV) always under water.
pub const ALWAYS_UNDER_WATER: &[u8] = b"3";

/// The water level effect (WATLEV) awash.
pub const AWASH: &[u8] = b"5";

/// The exposition of sounding (EXPSOU) within the range of the depths around it.
pub const WITHIN_DEPTHS_AROUND: &[u8] = b"1";

/// The exposition of sounding (EXPSOU) deeper than the depths around it.
pub const DEEPER_THAN_AROUND: &[u8] = b"3";

/// The water level effect (WATLEV) covers and uncovers.
pub const COVERS_AND_UNCOVERS: &[u8] = b"4";
