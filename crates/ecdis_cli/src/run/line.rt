//! Lines of the script.
//!
//! A line of more than 1,024 bytes is bad, unless it is a remark, and a remark may be of any length. So the front of a
//! line tells what it is, and no script can make the program keep more of it.

ghost use Rattle.std.specs.Prelude.{◌≡◌, take};

/// The most bytes of a line that are looked at. One of more than 1,024 bytes is a bad line, unless it is a remark, and
/// so many tell which.
///
/// Of the line as it is read, one byte more is kept: a carriage return at its end is no part of it.
pub const LOOKED_AT: usize = 1_025;

/// The front of a line that is looked at.
pub fn front_of(line: &[u8]) -> &[u8]
    ensures { result.now ≡ take 1025 line.now }
{
    if line.len() > LOOKED_AT {
        &line[..LOOKED_AT]
    } else {
        line
    }
}
