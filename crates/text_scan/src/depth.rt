//! Depths: decimals of a unit, in hundredths of it.
//!
//! Depths are held in whole centimetres. So a decimal is rounded down: never deeper than it says.

ghost use Rattle.std.specs.Prelude.{◌≡◌, ◌+◌, ◌-◌, ◌*◌, ◌/◌, ◌^◌, ◌<◌, ◌≤◌, ◌++◌, ◌↔◌};
ghost use Rattle.std.specs.Prelude.{ℤ, pos, List, ℕ, length, Some, IfSome, IsTrue, option_map};
ghost use Rattle.std.specs.Str.{all_ascii_digits};
ghost use Rattle.text_scan.specs.Number.{value_of};
ghost use Rattle.text_scan.specs.Depth.{SpellsDepth, digits_of, decimals_of, hundredths, depth_of};

use crate::digits::{append_digits, are_digits, digit_count};

/// The most digits before the point.
const MOST_WHOLE: usize = 6;

/// The most digits behind the point.
const MOST_DECIMALS: usize = 20;

/// The digits behind the point, in what follows those before it.
#[tactic(auto, unfolding(crate::specs::Depth::decimals_of))]
fn decimals(text: &[u8]) -> Option<&[u8]>
    ensures { option_map (λ digits. digits.now) result ≡ decimals_of text.now }
{
    match text {
        [] => Some(text),
        [b'.', digits @ ..] if are_digits(digits) => Some(digits),
        _ => None,
    }
}

/// The digits of a decimal without a sign, before and behind the point.
#[tactic(auto, unfolding(crate::specs::Depth::digits_of))]
fn digits(text: &[u8]) -> Option<(&[u8], &[u8])>
    ensures { option_map (λ parts. (parts.0.now, parts.1.now)) result ≡ digits_of text.now }
{
    let (whole, rest) = text.split_at(digit_count(text));
    let Some(decimals) = decimals(rest) else {
        return None;
    };
    if whole.len() > MOST_WHOLE || decimals.len() > MOST_DECIMALS {
        return None;
    }
    if whole.is_empty() && decimals.is_empty() {
        return None;
    }
    Some((whole, decimals))
}

/// The number of the digits, without the point.
fn amount(whole: &[u8], decimals: &[u8]) -> u128
    requires whole_digits { IsTrue (all_ascii_digits whole.now) }
    requires short_whole { length whole.now ≤ 6 }
    requires decimal_digits { IsTrue (all_ascii_digits decimals.now) }
    requires short_decimals { length decimals.now ≤ 20 }
    ensures value { result ≡ value_of (whole.now ++ decimals.now) }
    ensures below { result < 10 ^ (6 + length decimals.now) }
{
    append_digits(append_digits(0, whole), decimals)
}

/// The hundredths of an amount with so many decimals, rounded down.
fn floor(amount: u128, places: usize) -> i32
    requires few { places ≤ 20 }
    requires small { amount < 10 ^ (6 + places) }
    ensures { result ≡ pos (100 * amount / 10 ^ places) }
{
    (100 * amount / 10u128.pow(places as u32)) as i32
}

/// The same, rounded up.
fn ceiling(amount: u128, places: usize) -> i32
    requires few { places ≤ 20 }
    requires small { amount < 10 ^ (6 + places) }
    ensures { result ≡ pos ((100 * amount + (10 ^ places - 1)) / 10 ^ places) }
{
    let unit = 10u128.pow(places as u32);
    ((100 * amount + (unit - 1)) / unit) as i32
}

/// The hundredths of a decimal without a sign, as those of a negative number or a positive one.
fn hundredths_of(text: &[u8], negative: bool) -> Option<i32>
    ensures { result ≡ option_map (hundredths negative) (digits_of text.now) }
{
    let Some((whole, decimals)) = digits(text) else {
        return None;
    };
    let amount = amount(whole, decimals);
    if negative {
        Some(-ceiling(amount, decimals.len()))
    } else {
        Some(floor(amount, decimals.len()))
    }
}

/// The depth that a text is, as the function on lists has it.
#[tactic(auto, unfolding(crate::specs::Depth::depth_of))]
fn read(text: &[u8]) -> Option<i32>
    ensures { result ≡ depth_of text.now }
{
    match text {
        [] => None,
        [b'-', rest @ ..] => hundredths_of(rest, true),
        [b'+', rest @ ..] => hundredths_of(rest, false),
        _ => hundredths_of(text, false),
    }
}

/// The depth that a text is, in hundredths of its unit: an optional `+` or `-`, up to 6 digits, and
/// optionally `.` with up to 20 digits, with one digit at least. Further decimals are rounded down,
/// towards the shallower depth. It takes no memory.
pub fn read_depth(text: &[u8]) -> Option<i32>
    ensures found { IfSome result (SpellsDepth text.now) }
    // No other text is refused.
    ensures only { (depth : ℤ) → SpellsDepth text.now depth → result ≡ Some depth }
    ensures function { result ≡ depth_of text.now }
{
    read(text)
}

/// The function that definitions cite gives what a text spells, which is one depth at most.
pub fn depths_are_spelled()
    ensures function { (text : List ℕ) (depth : ℤ) →
        (depth_of text ≡ Some depth) ↔ SpellsDepth text depth }
    ensures one { (text : List ℕ) (a b : ℤ) →
        SpellsDepth text a → SpellsDepth text b → a ≡ b }
{}
