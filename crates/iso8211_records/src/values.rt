//! The values of a field, from its text.
//!
//! How long a value is, is said by its format or by the unit terminator behind it (ISO/IEC 8211). Where bytes are left
//! over, or the last group isn't whole, the field isn't read in part: it has no reading.

ghost use Rattle.std.specs.Prelude.{◌≡◌, ◌⊎◌, ◌≤◌, ◌<◌, length, position, Ok, Err, Some, None, IfOk, IfSome};
ghost use Rattle.iso8211_records.specs.declared.value.Value.{Value as ValueOf};
ghost use Rattle.iso8211_records.specs.Spelling.{unsigned_of, signed_of, IsNumberSize, FieldFormats};
ghost use Rattle.iso8211_records.specs.Values.{Finds, front_at, open_text_at, value_at, values_at, groups_at};
ghost use Rattle.iso8211_records.specs.Values.{values_of, number_size, is_terminator, before, before_all};

use crate::fault::ValuesFault;
use crate::value::Value;
use byteorder::{ByteOrder, LittleEndian};
use chart_model::Octets;
use chart_model::codes::{FIELD_TERMINATOR, UNIT_TERMINATOR};
use iso8211_formats::Format;
use std::alloc::{AllocError, Global};

/// Reads the values of a field's text, and puts them behind the others: one by each of the formats `once`, and then
/// whole groups of values by the formats `group` up to the text's end.
///
/// # Errors
///
/// `Unspelled` exactly where the text has no such reading; `NoMemory`.
#[tactic(auto, unfolding(crate::specs::Values::values_of))]
pub(crate) fn read_values(
    alloc: Global,
    text: &[u8],
    once: &[Format],
    group: &[Format],
    values: &mut Vec<Value>,
) -> Result<(), ValuesFault>
    ensures read { Finds (λ _. values.new.items) result
        (before_all values.old.items (values_of (record { once = once.now; group = group.now }) text.now)) }
    ensures grown { length values.old.items ≤ length values.new.items }
{
    let rest = read_each(alloc, text, once, values)?;
    read_groups(alloc, rest, group, values)
}

/// Reads whole groups up to the end of the bytes, and puts their values behind the others.
fn read_groups(
    alloc: Global,
    bytes: &[u8],
    group: &[Format],
    values: &mut Vec<Value>,
) -> Result<(), ValuesFault>
    ensures read { Finds (λ _. values.new.items) result
        (before_all values.old.items (groups_at (length bytes.now) group.now bytes.now)) }
    ensures grown { length values.old.items ≤ length values.new.items }
{
    if group.is_empty() {
        return if bytes.is_empty() {
            Ok(())
        } else {
            Err(ValuesFault::Unspelled)
        };
    }
    let mut rest = bytes;
    while !rest.is_empty() {
        rest = read_each(alloc, rest, group, values)?;
    }
    Ok(())
}

/// Reads a value by each format, puts the values behind the others, and gives the bytes that are left.
fn read_each<'a>(
    alloc: Global,
    bytes: &'a [u8],
    formats: &[Format],
    values: &mut Vec<Value>,
) -> Result<&'a [u8], ValuesFault>
    ensures read { Finds (λ rest. (values.new.items, rest.now)) result
        (before values.old.items (values_at formats.now bytes.now)) }
    ensures grown { length values.old.items ≤ length values.new.items }
{
    let mut rest = bytes;
    for format in formats {
        let (value, after) = read_value(alloc, rest, *format)?;
        values.push(value)?;
        rest = after;
    }
    Ok(rest)
}

/// Reads the value at the front of the bytes, and gives the bytes after it.
#[tactic(auto, unfolding(crate::specs::Values::value_at))]
fn read_value(alloc: Global, bytes: &[u8], format: Format) -> Result<(Value, &[u8]), ValuesFault>
    ensures { Finds (λ read. (read.0, read.1.now)) result (value_at format bytes.now) }
{
    match format {
        Format::TextOpen => {
            let (text, rest) = open_text(bytes)?;
            Ok((Value::Text(octets(alloc, text)?), rest))
        }
        Format::Text(width) => {
            let (text, rest) = front(bytes, width as usize)?;
            Ok((Value::Text(octets(alloc, text)?), rest))
        }
        Format::Unsigned(size) => {
            let (number, rest) = number_front(bytes, size)?;
            Ok((Value::Number(i64::from(unsigned_of(number))), rest))
        }
        Format::Signed(size) => {
            let (number, rest) = number_front(bytes, size)?;
            Ok((Value::Number(signed_of(number)), rest))
        }
        Format::Bits(count) => {
            let (bits, rest) = front(bytes, count as usize / 8)?;
            Ok((Value::Bits(octets(alloc, bits)?), rest))
        }
    }
}

/// The text up to a unit terminator, and the bytes after that.
#[tactic(auto, unfolding(crate::specs::Values::open_text_at))]
fn open_text(bytes: &[u8]) -> Result<(&[u8], &[u8]), ValuesFault>
    ensures { Finds (λ read. (read.0.now, read.1.now)) result (open_text_at bytes.now) }
{
    let Some(end) = terminator_of(bytes) else {
        return Err(ValuesFault::Unspelled);
    };
    if bytes[end] != UNIT_TERMINATOR {
        return Err(ValuesFault::Unspelled);
    }
    let (_, rest) = bytes.split_at(end + 1);
    let (text, _) = bytes.split_at(end);
    Ok((text, rest))
}

/// The place of the first byte that can't stand in a text without a width.
fn terminator_of(bytes: &[u8]) -> Option<usize>
    ensures place { result ≡ position is_terminator bytes.now }
    ensures inside { IfSome result (λ end. end < length bytes.now) }
{
    bytes.iter().position(|byte| *byte == FIELD_TERMINATOR || *byte == UNIT_TERMINATOR)
}

/// So many bytes from the front, at least one, and the bytes after them.
#[tactic(auto, unfolding(crate::specs::Values::front_at))]
fn front(bytes: &[u8], size: usize) -> Result<(&[u8], &[u8]), ValuesFault>
    ensures read { Finds (λ read. (read.0.now, read.1.now)) result (front_at size bytes.now) }
    ensures size { IfOk result (λ read. length read.0.now ≡ size) }
{
    if size == 0 || bytes.len() < size {
        return Err(ValuesFault::Unspelled);
    }
    Ok(bytes.split_at(size))
}

/// The bytes of a binary number, and the bytes after them.
#[tactic(auto, unfolding(crate::specs::Values::front_at))]
fn number_front(bytes: &[u8], size: u8) -> Result<(&[u8], &[u8]), ValuesFault>
    ensures read { Finds (λ read. (read.0.now, read.1.now)) result (front_at (number_size size) bytes.now) }
    ensures size { IfOk result (λ read. IsNumberSize (length read.0.now)) }
{
    match size {
        1 | 2 | 4 => front(bytes, size as usize),
        _ => Err(ValuesFault::Unspelled),
    }
}

/// The number that bytes are, the least significant first.
#[tactic(auto, unfolding(crate::specs::Spelling::unsigned_of))]
fn unsigned_of(bytes: &[u8]) -> u32
    requires { IsNumberSize (length bytes.now) }
    ensures { result ≡ unsigned_of bytes.now }
{
    match bytes {
        [byte] => u32::from(*byte),
        [_, _] => u32::from(LittleEndian::read_u16(bytes)),
        _ => LittleEndian::read_u32(bytes),
    }
}

/// The number that bytes are in two's complement, the least significant first.
#[tactic(auto, unfolding(crate::specs::Spelling::signed_of))]
fn signed_of(bytes: &[u8]) -> i64
    requires { IsNumberSize (length bytes.now) }
    ensures { result ≡ signed_of bytes.now }
{
    let number = i64::from(unsigned_of(bytes));
    let whole: i64 = match bytes.len() {
        1 => 0x100,
        2 => 0x1_0000,
        _ => 0x1_0000_0000,
    };
    if 2 * number < whole {
        number
    } else {
        number - whole
    }
}

/// A copy of the bytes.
fn octets(alloc: Global, bytes: &[u8]) -> Result<Octets, AllocError>
    ensures { IfOk result (λ octets. octets ≡ bytes.now) }
{
    Octets::from_slice(alloc, bytes)
}
