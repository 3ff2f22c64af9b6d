//! Subfields as bytes (ISO/IEC 8211, user data), by the formats that the data descriptive record gives them: numbers
//! with the least significant byte first (S-57 Part 3), and texts up to a unit terminator.
//!
//! A file that is read may have more formats than these. The fields that are written need no others: a text with a
//! width is its bytes alone, and a name in a string of bits (NAME, LNAM) is a row of such numbers.

ghost use Rattle.std.specs.Prelude.{◌≡◌, ◌++◌, OnOk};
ghost use Rattle.cell_bytes.specs.Subfields.{b11, b12, b14, b24, open_text};

use byteorder::{ByteOrder, LittleEndian};
use chart_model::Octets;
use chart_model::codes::UNIT_TERMINATOR;
use std::alloc::AllocError;

/// Adds a number of one byte.
#[tactic(auto, unfolding(crate::specs::Subfields::b11))]
pub(crate) fn put_b11(out: &mut Octets, number: u8) -> Result<(), AllocError>
    ensures { OnOk result (out.new ≡ out.old ++ b11 number) }
{
    out.extend_from_slice(&[number])
}

/// Adds a number of two bytes.
#[tactic(auto, unfolding(crate::specs::Subfields::b12))]
pub(crate) fn put_b12(out: &mut Octets, number: u16) -> Result<(), AllocError>
    ensures { OnOk result (out.new ≡ out.old ++ b12 number) }
{
    let mut bytes = [0; 2];
    LittleEndian::write_u16(&mut bytes, number);
    out.extend_from_slice(&bytes)
}

/// Adds a number of four bytes.
#[tactic(auto, unfolding(crate::specs::Subfields::b14))]
pub(crate) fn put_b14(out: &mut Octets, number: u32) -> Result<(), AllocError>
    ensures { OnOk result (out.new ≡ out.old ++ b14 number) }
{
    let mut bytes = [0; 4];
    LittleEndian::write_u32(&mut bytes, number);
    out.extend_from_slice(&bytes)
}

/// Adds a whole number of four bytes.
#[tactic(auto, unfolding(crate::specs::Subfields::b24))]
pub(crate) fn put_b24(out: &mut Octets, number: i32) -> Result<(), AllocError>
    ensures { OnOk result (out.new ≡ out.old ++ b24 number) }
{
    let mut bytes = [0; 4];
    LittleEndian::write_i32(&mut bytes, number);
    out.extend_from_slice(&bytes)
}

/// Adds a text without a fixed length, and the unit terminator behind it.
#[tactic(auto, unfolding(crate::specs::Subfields::open_text))]
pub(crate) fn put_text(out: &mut Octets, text: &[u8]) -> Result<(), AllocError>
    ensures { OnOk result (out.new ≡ out.old ++ open_text text.now) }
{
    out.extend_from_slice(text)?;
    out.extend_from_slice(&[UNIT_TERMINATOR])
}
