//! Numbers of so many digits.
//!
//! A date's numbers have a fixed length each and no sign, so what is a number elsewhere, as `+1`, is none here.

ghost use Rattle.std.specs.Prelude.{◌≡◌, ◌^◌, IfSome, pos, ◌≤ℤ◌, ◌<ℤ◌};
ghost use Rattle.std.specs.Int.{IsInRange};
ghost use Rattle.date_display.specs.Texts.{digits_in};

use text_scan::read_number;

/// The number that a text of so many digits is.
pub(crate) fn read_digits(text: &[u8], count: usize) -> Option<i16>
    requires { IsInRange 1 4 count }
    ensures function { result ≡ digits_in count text.now }
    ensures low { IfSome result (λ number. pos 0 ≤ℤ number) }
    ensures high { IfSome result (λ number. number <ℤ pos (10 ^ count)) }
{
    if text.len() != count {
        return None;
    }
    match read_number(text) {
        Some(number) => Some(number as i16),
        None => None,
    }
}

/// The number that a text of two digits is.
pub(crate) fn read_two_digits(text: &[u8]) -> Option<i8>
    ensures { result ≡ digits_in 2 text.now }
{
    match read_digits(text, 2) {
        Some(number) => Some(number as i8),
        None => None,
    }
}
