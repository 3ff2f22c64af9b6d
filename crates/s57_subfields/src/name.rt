//! Names in strings of bits.
//!
//! A name has several numbers in one subfield, each with its least significant byte first.

ghost use Rattle.std.specs.Prelude.{◌≡◌};
ghost use Rattle.s57_subfields.specs.Names.{two_bytes, four_bytes, name_in, foid_in, record_name, object_name};

use crate::kind::Kind;
use chart_model::{Foid, Name};
use iso8211_records::Value;
use std::alloc::{AllocError, Global};

/// The name of a record (NAME): a string of 40 bits.
#[derive(Clone, Copy, Debug)]
pub struct RecordName;

/// The identifier of a feature object (LNAM): a string of 64 bits.
#[derive(Clone, Copy, Debug)]
pub struct ObjectName;

/// The number that two bytes are, the least significant first.
fn two_bytes(a: u8, b: u8) -> u16
    ensures { result ≡ two_bytes a b }
{
    u16::from(a) + 256 * u16::from(b)
}

/// The number that four bytes are, the least significant first.
fn four_bytes(a: u8, b: u8, c: u8, d: u8) -> u32
    ensures { result ≡ four_bytes a b c d }
{
    u32::from(a) + 256 * (u32::from(b) + 256 * (u32::from(c) + 256 * u32::from(d)))
}

/// The name that five bytes are: RCNM, and RCID in four.
#[tactic(auto, unfolding(crate::specs::Names::name_in))]
fn name_in(bits: &[u8]) -> Option<Name>
    ensures { result ≡ name_in bits.now }
{
    match bits {
        [rcnm, a, b, c, d] => Some(Name {
            rcnm: *rcnm,
            rcid: four_bytes(*a, *b, *c, *d),
        }),
        _ => None,
    }
}

/// The identifier that eight bytes are: AGEN in two, FIDN in four and FIDS in two.
#[tactic(auto, unfolding(crate::specs::Names::foid_in))]
fn foid_in(bits: &[u8]) -> Option<Foid>
    ensures { result ≡ foid_in bits.now }
{
    match bits {
        [a, b, c, d, e, f, g, h] => Some(Foid {
            agen: two_bytes(*a, *b),
            fidn: four_bytes(*c, *d, *e, *f),
            fids: two_bytes(*g, *h),
        }),
        _ => None,
    }
}

impl Kind for RecordName {
    type Output = Name;

    ghost reads = { λ _. record_name };

    ghost holds = { λ _ _. Unit {0} };

    #[tactic(auto, unfolding(crate::specs::Names::record_name))]
    fn read(&self, _alloc: Global, value: &Value) -> Result<Option<Name>, AllocError> {
        match value {
            Value::Bits(bits) => Ok(name_in(bits.as_slice())),
            _ => Ok(None),
        }
    }

    #[tactic(auto, unfolding(crate::specs::Names::record_name))]
    fn accepts(&self, value: &Value) -> bool {
        match value {
            Value::Bits(bits) => name_in(bits.as_slice()).is_some(),
            _ => false,
        }
    }
}

impl Kind for ObjectName {
    type Output = Foid;

    ghost reads = { λ _. object_name };

    ghost holds = { λ _ _. Unit {0} };

    #[tactic(auto, unfolding(crate::specs::Names::object_name))]
    fn read(&self, _alloc: Global, value: &Value) -> Result<Option<Foid>, AllocError> {
        match value {
            Value::Bits(bits) => Ok(foid_in(bits.as_slice())),
            _ => Ok(None),
        }
    }

    #[tactic(auto, unfolding(crate::specs::Names::object_name))]
    fn accepts(&self, value: &Value) -> bool {
        match value {
            Value::Bits(bits) => foid_in(bits.as_slice()).is_some(),
            _ => false,
        }
    }
}
