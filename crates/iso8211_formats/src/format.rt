//! How a subfield is spelled.
//!
//! The letters of texts (`A`, `I`, `R`) are one format: what a text says is told by its label, above this crate.

use crate::descriptor::MOST_SUBFIELDS;
use arrayvec::ArrayVec;

/// How a subfield is spelled (ISO/IEC 8211, format controls).
#[derive(Clone, Copy, Debug, Default, PartialEq, Eq)]
pub enum Format {
    /// A text up to its unit terminator: `A`, `A()`, `I` or `R`.
    #[default]
    TextOpen,
    /// A text of so many bytes: `A`, `I` or `R` with a width, 1 to 99,999.
    Text(u32),
    /// An unsigned number of 1, 2 or 4 bytes, the least significant first: `b11`, `b12`, `b14`.
    Unsigned(u8),
    /// A signed number of 1, 2 or 4 bytes in two's complement: `b21`, `b22`, `b24`.
    Signed(u8),
    /// A string of so many bits, a multiple of 8 from 8 to 99,992: `B(n)`.
    Bits(u32),
}

/// Formats in the order of their subfields.
pub type FormatList = ArrayVec<Format, MOST_SUBFIELDS>;
