//! Text within a document.
//!
//! Texts of charts and tables may have any byte. What could end an attribute or an element is written as a reference to
//! its character, and so is what isn't ASCII; of a control the reference is to its picture, since a document of XML may
//! not have the control itself.

ghost use Rattle.std.specs.Prelude.{◌≡◌, ◌++◌, OnOk};
ghost use Rattle.std.specs.List.{list_all};
ghost use Rattle.chart_svg.specs.Escape.{is_plain, reference, shown_as, escaped_byte, escaped};

use chart_model::Octets;
use std::alloc::{AllocError, Global};
use text_scan::write_number;

/// The picture of the first control, U+2400.
const FIRST_PICTURE: u32 = 0x2400;

/// Whether a byte stands for itself in a document.
fn is_plain(byte: u8) -> bool
    ensures { result ≡ is_plain byte }
{
    // Letters and digits, as nearly all bytes are, stand in the first two ranges.
    matches!(byte, b'?'..=b'~' | b'\''..=b';') || matches!(byte, b' ' | b'!' | b'#'..=b'%' | b'=')
}

/// Whether each byte of a text stands for itself.
fn are_plain(text: &[u8]) -> bool
    ensures { result ≡ list_all is_plain text.now }
{
    text.iter().all(|byte| is_plain(*byte))
}

/// The character that stands for a byte which doesn't stand for itself.
fn shown_as(byte: u8) -> u32
    ensures { result ≡ shown_as byte }
{
    if byte < b' ' {
        FIRST_PICTURE + u32::from(byte)
    } else {
        u32::from(byte)
    }
}

/// Adds a reference to a character.
fn push_reference(alloc: Global, out: &mut Octets, character: u32) -> Result<(), AllocError>
    ensures { OnOk result (out.new ≡ out.old ++ reference character) }
{
    out.extend_from_slice(b"&#")?;
    write_number(alloc, out, i128::from(character))?;
    out.extend_from_slice(b";")
}

/// Adds a byte of a text.
fn push_byte(alloc: Global, out: &mut Octets, byte: u8) -> Result<(), AllocError>
    ensures { OnOk result (out.new ≡ out.old ++ escaped_byte byte) }
{
    if is_plain(byte) {
        out.extend_from_slice(&[byte])
    } else {
        push_reference(alloc, out, shown_as(byte))
    }
}

/// Adds a text byte by byte.
fn push_bytes(alloc: Global, out: &mut Octets, text: &[u8]) -> Result<(), AllocError>
    ensures { OnOk result (out.new ≡ out.old ++ escaped text.now) }
{
    for byte in text {
        push_byte(alloc, out, *byte)?;
    }
    Ok(())
}

/// Adds a text as it stands in a document. Most texts stand for themselves, and are added whole.
pub(crate) fn push_escaped(alloc: Global, out: &mut Octets, text: &[u8]) -> Result<(), AllocError>
    ensures { OnOk result (out.new ≡ out.old ++ escaped text.now) }
{
    if are_plain(text) {
        out.extend_from_slice(text)
    } else {
        push_bytes(alloc, out, text)
    }
}
