//! Texts: numbers in digits, dates, names of data sets and values of attributes.
//!
//! Bytes are kept as they stand: the lexical level, which is read apart, says which characters they are.

ghost use Rattle.std.specs.Prelude.{◌≡◌, ◌≤◌, ◌&&◌, ◌==◌, not, length, IfOk, IfSome};
ghost use Rattle.std.specs.List.{list_all};
ghost use Rattle.chart_model.specs.Key.{IsKey, is_key};
ghost use Rattle.chart_model.specs.Record.{IsPlainText};
ghost use Rattle.s57_subfields.specs.Texts.{nine_digits, eight_bytes, plain_text, data_set_name, is_plain, key_in};

use crate::kind::Kind;
use crate::number::digits_up_to;
use chart_model::codes::{FIELD_TERMINATOR, UNIT_TERMINATOR};
use chart_model::{Key, Octets, keys_are_tested};
use iso8211_records::Value;
use std::alloc::{AllocError, Global};

/// A text of 1 to 9 digits (EDTN, UPDN), read as its number.
#[derive(Clone, Copy, Debug)]
pub struct NineDigits;

/// A text of eight bytes (ISDT).
#[derive(Clone, Copy, Debug)]
pub struct EightBytes;

/// A text without a field or unit terminator (ATVL).
#[derive(Clone, Copy, Debug)]
pub struct PlainText;

/// The name of a data set's file (DSNM): its part before the last dot, or all of it without a dot, is a
/// key.
#[derive(Clone, Copy, Debug)]
pub struct DataSetName;

impl Kind for NineDigits {
    type Output = u32;

    ghost reads = { λ _. nine_digits };

    ghost holds = { λ _ n. n ≤ 999999999 };

    #[tactic(auto, unfolding(crate::specs::Texts::nine_digits))]
    fn read(&self, _alloc: Global, value: &Value) -> Result<Option<u32>, AllocError> {
        match value {
            Value::Text(text) if text.as_slice().len() <= 9 => {
                Ok(digits_up_to(999_999_999, text.as_slice()))
            }
            _ => Ok(None),
        }
    }

    #[tactic(auto, unfolding(crate::specs::Texts::nine_digits))]
    fn accepts(&self, value: &Value) -> bool {
        match value {
            Value::Text(text) if text.as_slice().len() <= 9 => {
                digits_up_to(999_999_999, text.as_slice()).is_some()
            }
            _ => false,
        }
    }
}

impl Kind for EightBytes {
    type Output = [u8; 8];

    ghost reads = { λ _. eight_bytes };

    ghost holds = { λ _ _. Unit {0} };

    #[tactic(auto, unfolding(crate::specs::Texts::eight_bytes))]
    fn read(&self, _alloc: Global, value: &Value) -> Result<Option<[u8; 8]>, AllocError> {
        match value {
            Value::Text(text) if text.as_slice().len() == 8 => {
                let mut bytes = [0; 8];
                bytes.copy_from_slice(text.as_slice());
                Ok(Some(bytes))
            }
            _ => Ok(None),
        }
    }

    #[tactic(auto, unfolding(crate::specs::Texts::eight_bytes))]
    fn accepts(&self, value: &Value) -> bool {
        match value {
            Value::Text(text) => text.as_slice().len() == 8,
            _ => false,
        }
    }
}

/// Whether the text has neither a field nor a unit terminator.
fn is_plain(text: &[u8]) -> bool
    ensures { result ≡ is_plain text.now }
{
    text.iter().all(|byte| *byte != FIELD_TERMINATOR && *byte != UNIT_TERMINATOR)
}

/// Whether the bytes are the key of a cell.
fn is_key(bytes: &[u8]) -> bool
    ensures { result ≡ is_key bytes.now }
{
    keys_are_tested();
    Key::from_bytes(bytes).is_some()
}

/// The key in the name of a data set's file: the part before the last dot, or all of it without a dot.
/// It takes no memory.
pub fn key_in(name: &[u8]) -> &[u8]
    ensures { result.now ≡ key_in name.now }
{
    let mut front = name;
    while let [rest @ .., last] = front {
        if *last == b'.' {
            return rest;
        }
        front = rest;
    }
    name
}

/// The key in the name of a data set's file, which has one. It takes no memory.
pub fn key_of(name: &[u8]) -> Key
    requires { IsKey (key_in name.now) }
    ensures { result ≡ key_in name.now }
{
    match Key::from_bytes(key_in(name)) {
        Some(key) => key,
        None => unreachable!(),
    }
}

/// A copy of the text.
fn copied(alloc: Global, text: &[u8]) -> Result<Octets, AllocError>
    ensures { IfOk result (λ copy. copy ≡ text.now) }
{
    Octets::from_slice(alloc, text)
}

impl Kind for PlainText {
    type Output = Octets;

    ghost reads = { λ _. plain_text };

    ghost holds = { λ _. IsPlainText };

    #[tactic(auto, unfolding(crate::specs::Texts::plain_text))]
    fn read(&self, alloc: Global, value: &Value) -> Result<Option<Octets>, AllocError> {
        match value {
            Value::Text(text) if is_plain(text.as_slice()) => {
                Ok(Some(copied(alloc, text.as_slice())?))
            }
            _ => Ok(None),
        }
    }

    #[tactic(auto, unfolding(crate::specs::Texts::plain_text))]
    fn accepts(&self, value: &Value) -> bool {
        match value {
            Value::Text(text) => is_plain(text.as_slice()),
            _ => false,
        }
    }
}

impl Kind for DataSetName {
    type Output = Octets;

    ghost reads = { λ _. data_set_name };

    ghost holds = { λ _ name. IsKey (key_in name) };

    #[tactic(auto, unfolding(crate::specs::Texts::data_set_name))]
    fn read(&self, alloc: Global, value: &Value) -> Result<Option<Octets>, AllocError> {
        match value {
            Value::Text(text) if is_key(key_in(text.as_slice())) => {
                Ok(Some(copied(alloc, text.as_slice())?))
            }
            _ => Ok(None),
        }
    }

    #[tactic(auto, unfolding(crate::specs::Texts::data_set_name))]
    fn accepts(&self, value: &Value) -> bool {
        match value {
            Value::Text(text) => is_key(key_in(text.as_slice())),
            _ => false,
        }
    }
}
