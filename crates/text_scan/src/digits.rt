//! Digits, and the numbers that they write.
//!
//! They are added up in 128 bits, which no text that passed its length test can fill.

ghost use Rattle.std.specs.Prelude.{◌≡◌, ◌+◌, ◌^◌, ◌<◌, ◌≤◌, length, take, IsTrue};
ghost use Rattle.std.specs.List.{prefix_len};
ghost use Rattle.std.specs.Char.{is_ascii_digit};
ghost use Rattle.std.specs.Str.{all_ascii_digits};
ghost use Rattle.std.specs.Str.Parse.{digits_value_after};

/// Whether the text is digits alone.
pub fn are_digits(text: &[u8]) -> bool
    ensures { result ≡ all_ascii_digits text.now }
{
    for byte in text {
        if !byte.is_ascii_digit() {
            return false;
        }
    }
    true
}

/// How many digits stand in front.
pub fn digit_count(text: &[u8]) -> usize
    ensures count { result ≡ prefix_len is_ascii_digit text.now }
    ensures within { result ≤ length text.now }
    ensures digits { IsTrue (all_ascii_digits (take result text.now)) }
{
    text.iter().take_while(|byte| byte.is_ascii_digit()).count()
}

/// The number that these digits write behind those of another.
pub fn append_digits(start: u128, digits: &[u8]) -> u128
    requires all { IsTrue (all_ascii_digits digits.now) }
    requires small { start < 10 ^ 6 }
    requires short { length digits.now ≤ 20 }
    ensures value { result ≡ digits_value_after 10 start digits.now }
    ensures below { result < 10 ^ (6 + length digits.now) }
{
    let mut value = start;
    for digit in digits {
        value = value * 10 + u128::from(*digit - b'0');
    }
    value
}
