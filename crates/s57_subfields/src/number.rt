//! Unsigned numbers: binary, or digits in a text.
//!
//! A file says in its descriptors whether a number is binary or a text, so either is read. What it may be at most goes
//! by the subfield, and not by how many bytes the file gives it.

ghost use Rattle.std.specs.Prelude.{◌≡◌, ◌≤◌, IfSome};
ghost use Rattle.s57_subfields.specs.Number.{number_up_to, natural_up_to, digits_up_to, ONE_BYTE, TWO_BYTES};
ghost use Rattle.s57_subfields.specs.Number.{FOUR_BYTES};

use crate::kind::Kind;
use iso8211_records::Value;
use std::alloc::{AllocError, Global};

/// A number of one byte (`b11`): 0 to 255.
#[derive(Clone, Copy, Debug)]
pub struct OneByte;

/// A number of two bytes (`b12`): 0 to 65,535.
#[derive(Clone, Copy, Debug)]
pub struct TwoBytes;

/// A number of four bytes (`b14`): 0 to 4,294,967,295.
#[derive(Clone, Copy, Debug)]
pub struct FourBytes;

/// The number that one or more digits write, where it is at most `most`. They may be of any length.
pub(crate) fn digits_up_to(most: u32, text: &[u8]) -> Option<u32>
    ensures found { result ≡ digits_up_to most text.now }
    ensures within { IfSome result (λ n. n ≤ most) }
{
    if text.is_empty() {
        return None;
    }
    let mut number: u64 = 0;
    for byte in text {
        if !byte.is_ascii_digit() {
            return None;
        }
        number = number * 10 + u64::from(*byte - b'0');
        if number > u64::from(most) {
            return None;
        }
    }
    Some(number as u32)
}

/// The number that a value is, where it is a binary number or digits, and at most `most`.
#[tactic(auto, unfolding(crate::specs::Number::number_up_to))]
fn number_up_to(most: u32, value: &Value) -> Option<u32>
    ensures found { result ≡ number_up_to most value.now }
    ensures within { IfSome result (λ n. n ≤ most) }
{
    match value {
        Value::Number(number) => natural_up_to(most, *number),
        Value::Text(text) => digits_up_to(most, text.as_slice()),
        Value::Bits(_) => None,
    }
}

/// A number that isn't negative, where it is at most `most`.
fn natural_up_to(most: u32, number: i64) -> Option<u32>
    ensures found { result ≡ natural_up_to most number }
    ensures within { IfSome result (λ n. n ≤ most) }
{
    if number < 0 {
        return None;
    }
    let size = number.unsigned_abs();
    if size > u64::from(most) {
        return None;
    }
    Some(size as u32)
}

impl Kind for OneByte {
    type Output = u8;

    ghost reads = { λ _. number_up_to ONE_BYTE };

    ghost holds = { λ _ n. n ≤ ONE_BYTE };

    fn read(&self, _alloc: Global, value: &Value) -> Result<Option<u8>, AllocError> {
        match number_up_to(u32::from(u8::MAX), value) {
            Some(number) => Ok(Some(number as u8)),
            None => Ok(None),
        }
    }

    fn accepts(&self, value: &Value) -> bool {
        number_up_to(u32::from(u8::MAX), value).is_some()
    }
}

impl Kind for TwoBytes {
    type Output = u16;

    ghost reads = { λ _. number_up_to TWO_BYTES };

    ghost holds = { λ _ n. n ≤ TWO_BYTES };

    fn read(&self, _alloc: Global, value: &Value) -> Result<Option<u16>, AllocError> {
        match number_up_to(u32::from(u16::MAX), value) {
            Some(number) => Ok(Some(number as u16)),
            None => Ok(None),
        }
    }

    fn accepts(&self, value: &Value) -> bool {
        number_up_to(u32::from(u16::MAX), value).is_some()
    }
}

impl Kind for FourBytes {
    type Output = u32;

    ghost reads = { λ _. number_up_to FOUR_BYTES };

    ghost holds = { λ _ n. n ≤ FOUR_BYTES };

    fn read(&self, _alloc: Global, value: &Value) -> Result<Option<u32>, AllocError> {
        Ok(number_up_to(u32::MAX, value))
    }

    fn accepts(&self, value: &Value) -> bool {
        number_up_to(u32::MAX, value).is_some()
    }
}
