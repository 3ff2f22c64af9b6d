//! The text of a number.
//!
//! What is written here can be read back, and a number has one text, so replies can be compared as bytes.

ghost use Rattle.std.specs.Prelude.{◌≡◌, ◌<◌, ◌^◌, ◌++◌, List, ℕ, ℤ, unsigned_abs, OnOk, OnErr};
ghost use Rattle.text_scan.specs.Written.{decimal_of, IsDecimal};

use chart_model::Octets;
use itoa::Buffer;
use std::alloc::{AllocError, Global};

/// Adds the decimal text of a number: `-` where it is below 0, and its digits without a leading zero.
///
/// Where there is no memory for the text nothing changes. Memory is taken by the text that it is added to alone.
pub fn write_number(_alloc: Global, out: &mut Octets, n: i128) -> Result<(), AllocError>
    ensures ok { OnOk result (out.new ≡ out.old ++ decimal_of n) }
    ensures err { OnErr result (out.new ≡ out.old) }
{
    let mut buffer = Buffer::new();
    out.extend_from_slice(buffer.format(n).as_bytes())
}

/// The function that definitions cite gives a decimal text, and a number has one decimal text at most.
pub fn decimals_are_spelled()
    ensures decimal { (z : ℤ) → unsigned_abs z < 10 ^ 64 → IsDecimal (decimal_of z) z }
    ensures one { (z : ℤ) (a b : List ℕ) → IsDecimal a z → IsDecimal b z → a ≡ b }
{}
