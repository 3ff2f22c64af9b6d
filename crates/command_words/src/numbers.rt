//! Numbers among the words.
//!
//! They are read more strictly than Rust's `parse`, which takes a sign and leading zeros.

ghost use Rattle.std.specs.Prelude.{◌≡◌, ◌≢◌, ◌<◌, ◌↔◌, ◌^◌, IsTrue, length, slice_index};
ghost use Rattle.std.specs.Option.{SomeIff};
ghost use Rattle.std.specs.Str.Parse.{digits_value};
ghost use Rattle.command_words.specs.Numbers.{IsNumber, number_from_to};

/// Whether no sign stands before the digits, nor a zero.
fn is_plain(text: &[u8]) -> bool
    ensures { IsTrue result ↔ ((slice_index text.now 0 ≢ 43) × (slice_index text.now 0 ≡ 48 → length text.now ≡ 1)) }
{
    match text {
        [b'+', ..] => false,
        [b'0', rest @ ..] => rest.is_empty(),
        _ => true,
    }
}

/// The number that a text is: digits without a sign, with no zero before them.
fn number(text: &str) -> Option<u32>
    ensures { SomeIff result (IsNumber text.now × (digits_value 10 text.now < 2 ^ 32)) (digits_value 10 text.now) }
{
    if is_plain(text.as_bytes()) {
        text.parse::<u32>().ok()
    } else {
        None
    }
}

/// The number that a text is, where it is one from `low` to `high`.
pub fn number_within(text: &str, low: u32, high: u32) -> Option<u32>
    ensures { result ≡ number_from_to low high text.now }
{
    match number(text) {
        Some(number) if low <= number && number <= high => Some(number),
        _ => None,
    }
}
