//! Whole numbers.
//!
//! A number has at most 18 digits, so that it fits 64 bits with and without a sign.

ghost use Rattle.std.specs.Prelude.{◌≡◌, ◌^◌, ◌<◌, ◌↔◌, List, ℕ, ℤ, IfSome, IsTrue, Some};
ghost use Rattle.std.specs.Option.{SomeIff};
ghost use Rattle.text_scan.specs.Number.{IsNumber, value_of, number_of, SpellsSigned, signed_of};

use crate::digits::{append_digits, are_digits};

/// The most digits of a number.
const MOST_DIGITS: usize = 18;

/// Whether the text is 1 to 18 digits.
fn is_number(text: &[u8]) -> bool
    ensures { IsTrue result ↔ IsNumber text.now }
{
    !text.is_empty() && text.len() <= MOST_DIGITS && are_digits(text)
}

/// The number that a text is: 1 to 18 digits and nothing else. It takes no memory.
pub fn read_number(text: &[u8]) -> Option<u64>
    ensures exact { SomeIff result (IsNumber text.now) (value_of text.now) }
    ensures below { IfSome result (λ n. n < 10 ^ 18) }
    ensures function { result ≡ number_of text.now }
{
    if is_number(text) {
        Some(append_digits(0, text) as u64)
    } else {
        None
    }
}

/// The number that a text is: 1 to 18 digits, which may have `-` before them, and nothing else. It
/// takes no memory.
#[tactic(auto, unfolding(crate::specs::Number::signed_of))]
pub fn read_signed(text: &[u8]) -> Option<i64>
    ensures found { IfSome result (SpellsSigned text.now) }
    // No other text is refused.
    ensures only { (z : ℤ) → SpellsSigned text.now z → result ≡ Some z }
    ensures function { result ≡ signed_of text.now }
{
    match text {
        [b'-', digits @ ..] => match read_number(digits) {
            Some(number) => Some(-(number as i64)),
            None => None,
        },
        _ => match read_number(text) {
            Some(number) => Some(number as i64),
            None => None,
        },
    }
}

/// The functions that definitions cite give what a text spells.
pub fn numbers_are_spelled()
    ensures number { (text : List ℕ) (n : ℕ) →
        (number_of text ≡ Some n) ↔ (IsNumber text × (value_of text ≡ n)) }
    ensures signed { (text : List ℕ) (z : ℤ) →
        (signed_of text ≡ Some z) ↔ SpellsSigned text z }
{}
