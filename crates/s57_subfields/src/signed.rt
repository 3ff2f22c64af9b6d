//! Signed numbers: binary, or digits in a text.
//!
//! Only a binary number has a sign: a text is digits alone, so nothing below 0 is read from it. Soundings are in
//! decimetres (SOMF is 10 in an ENC) and are kept in centimetres, as all depths are.

ghost use Rattle.std.specs.Prelude.{◌≡◌, ◌<◌, ◌≤◌, ◌^◌, IfSome, unsigned_abs};
ghost use Rattle.chart_model.specs.Record.{IsDepth, IsWithin};
ghost use Rattle.s57_subfields.specs.Signed.{number_within, whole_within, depth_in};

use crate::kind::Kind;
use crate::number::digits_up_to;
use iso8211_records::Value;
use std::alloc::{AllocError, Global};

/// A number from `-most` to `most`.
#[derive(Debug, Drop)]
pub struct Within {
    pub most: u32,
    pub ghost small: { most < 2 ^ 31 },
}

/// A number from `-most` to `most`.
fn whole_within(most: u32, number: i64) -> Option<i32>
    requires { most < 2 ^ 31 }
    ensures found { result ≡ whole_within most number }
    ensures within { IfSome result (IsWithin most) }
{
    if number.unsigned_abs() > u64::from(most) {
        return None;
    }
    Some(number as i32)
}

/// The number that a value is, where it is a binary number or digits, from `-most` to `most`.
#[tactic(auto, unfolding(crate::specs::Signed::number_within))]
fn number_within(most: u32, value: &Value) -> Option<i32>
    requires { most < 2 ^ 31 }
    ensures found { result ≡ number_within most value.now }
    ensures within { IfSome result (IsWithin most) }
{
    match value {
        Value::Number(number) => whole_within(most, *number),
        Value::Text(text) => match digits_up_to(most, text.as_slice()) {
            Some(number) => Some(number as i32),
            None => None,
        },
        Value::Bits(_) => None,
    }
}

impl Kind for Within {
    type Output = i32;

    ghost reads = { λ within. number_within within.most };

    ghost holds = { λ within. IsWithin within.most };

    fn read(&self, _alloc: Global, value: &Value) -> Result<Option<i32>, AllocError> {
        Ok(number_within(self.most, value))
    }

    fn accepts(&self, value: &Value) -> bool {
        number_within(self.most, value).is_some()
    }
}

/// The depth of a sounding (VE3D): decimetres from -999,999 to 999,999, read as centimetres.
#[derive(Clone, Copy, Debug)]
pub struct Depth;

/// The greatest depth, in decimetres.
const GREATEST_DEPTH: u32 = 999_999;

impl Kind for Depth {
    type Output = i32;

    ghost reads = { λ _. depth_in };

    ghost holds = { λ _. IsDepth };

    #[tactic(auto, unfolding(crate::specs::Signed::depth_in))]
    fn read(&self, _alloc: Global, value: &Value) -> Result<Option<i32>, AllocError> {
        match number_within(GREATEST_DEPTH, value) {
            Some(decimetres) => Ok(Some(decimetres * 10)),
            None => Ok(None),
        }
    }

    #[tactic(auto, unfolding(crate::specs::Signed::depth_in))]
    fn accepts(&self, value: &Value) -> bool {
        number_within(GREATEST_DEPTH, value).is_some()
    }
}
