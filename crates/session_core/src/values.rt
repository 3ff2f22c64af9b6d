//! What a refusal names, as it is printed.
//!
//! What a refusal names is one list of these, in the order in which they are printed. The name of a record is two
//! words, and the identifier of a feature object three.

ghost use Rattle.std.specs.Prelude.{◌≡◌, ◌++◌, IfOk, OnOk};
ghost use Rattle.std.specs.List.{flat_map, join_with_byte};
ghost use Rattle.session_core.specs.Values.{words_of};

use chart_model::{Foid, Name, Octets};
use script_reader::push_number;
use std::alloc::{AllocError, Global};
use text_scan::write_number;

/// One of the values that a refusal names.
#[derive(Clone, Copy, Debug)]
pub enum Value<'a> {
    /// A number, in digits.
    Number(u64),
    /// A text, as it is.
    Text(&'a [u8]),
    /// The name of a record: its kind and its number.
    Name(Name),
    /// The identifier of a feature object: agency, number and subdivision.
    Foid(Foid),
}

/// Adds a value: its words, parted by single spaces.
fn push_value(alloc: Global, words: &mut Octets, value: &Value) -> Result<(), AllocError>
    ensures { OnOk result (words.new ≡ words.old ++ join_with_byte 32 (words_of value.now)) }
{
    match value {
        Value::Number(number) => write_number(alloc, words, *number as i128),
        Value::Text(text) => words.extend_from_slice(text),
        Value::Name(name) => {
            write_number(alloc, words, name.rcnm as i128)?;
            push_number(alloc, words, name.rcid as u64)
        }
        Value::Foid(foid) => {
            write_number(alloc, words, foid.agen as i128)?;
            push_number(alloc, words, foid.fidn as u64)?;
            push_number(alloc, words, foid.fids as u64)
        }
    }
}

/// The words of values, parted by single spaces.
pub fn join(alloc: Global, values: &[Value]) -> Result<Octets, AllocError>
    ensures { IfOk result (λ words. words ≡ join_with_byte 32 (flat_map words_of values.now)) }
{
    let mut words = Octets::from_vec(Vec::new(alloc));
    match values {
        [] => Ok(words),
        [first, rest @ ..] => {
            push_value(alloc, &mut words, first)?;
            for value in rest {
                words.extend_from_slice(b" ")?;
                push_value(alloc, &mut words, value)?;
            }
            Ok(words)
        }
    }
}
