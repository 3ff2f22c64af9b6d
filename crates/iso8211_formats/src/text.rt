//! Pieces of a field's text, and the numbers in it.
//!
//! A record has at most 99,999 bytes, since its length has five digits (ISO/IEC 8211, leader). So no width or count
//! need be more; and 0 is none, since a value has at least one byte.

ghost use Rattle.std.specs.Prelude.{◌≡◌, ◌<◌, ◌≤◌, length, take, drop, option_map, IfSome, position, not, ◌==◌};
ghost use Rattle.std.specs.Char.{is_ascii_digit};
ghost use Rattle.iso8211_formats.specs.Reading.{cut_at, counting_number_of, digits_and_rest};

/// The widest width.
const WIDEST: u32 = 99_999;

/// Where the first such byte stands.
fn place_of(text: &[u8], byte: u8) -> Option<usize>
    ensures { result ≡ position (λ other. other == byte) text.now }
{
    text.iter().position(|other| *other == byte)
}

/// Where the first byte stands that is no digit.
fn place_of_other(text: &[u8]) -> Option<usize>
    ensures { result ≡ position (λ byte. not (is_ascii_digit byte)) text.now }
{
    text.iter().position(|byte| !byte.is_ascii_digit())
}

/// What stands before the first such byte, and what stands behind it.
pub fn cut(text: &[u8], byte: u8) -> Option<(&[u8], &[u8])>
    ensures parts { option_map (λ parts. (parts.0.now, parts.1.now)) result ≡ cut_at byte text.now }
    ensures shorter { IfSome result (λ parts. length parts.1.now < length text.now) }
{
    match place_of(text, byte) {
        Some(at) => Some((&text[..at], &text[at + 1..])),
        None => None,
    }
}

/// How many digits stand in front.
pub fn digit_count(text: &[u8]) -> usize
    ensures parts { digits_and_rest text.now ≡ (take result text.now, drop result text.now) }
    ensures within { result ≤ length text.now }
{
    match place_of_other(text) {
        Some(at) => at,
        None => text.len(),
    }
}

/// The number from 1 to 99,999 that these digits write.
pub fn read_number(digits: &[u8]) -> Option<u32>
    ensures { result ≡ counting_number_of digits.now }
{
    let mut value = 0;
    for digit in digits {
        if !digit.is_ascii_digit() {
            return None;
        }
        value = value * 10 + u32::from(*digit - b'0');
        if value > WIDEST {
            return None;
        }
    }
    if value == 0 { None } else { Some(value) }
}
