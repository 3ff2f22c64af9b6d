//! The values of a field.
//!
//! They stand as the format spells them: what a subfield may hold is tested by its label, above this crate.

use crate::part::Part;
use chart_model::Octets;

/// The value of a subfield.
#[derive(Debug, Drop)]
pub enum Value {
    /// A binary number, signed or not.
    Number(i64),
    /// The bytes of a text, without its terminator.
    Text(Octets),
    /// The bytes of a string of bits.
    Bits(Octets),
}

/// The values of a field, in order.
pub type ValueList = Part<Value>;
