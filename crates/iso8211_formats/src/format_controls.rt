//! The format controls: how a field's subfields are spelled.
//!
//! A count before a format repeats it: it is written out, so that a subfield's format is found by the place of its
//! label. Formats are at most 64, as labels are, and lie in place.

ghost use Rattle.std.specs.Prelude.{◌≡◌, ◌+◌, ◌++◌, ◌<◌, ◌≤◌, ◌==◌, if◌then◌else◌, length, replicate, option_map, Some};
ghost use Rattle.std.specs.Prelude.{None};
ghost use Rattle.std.specs.List.{slice_split};
ghost use Rattle.iso8211_formats.specs.Reading.{open_format, binary_format, format_with, sized_format, format_of};
ghost use Rattle.iso8211_formats.specs.Reading.{count_of, item_of, items_of, formats_of, is_text_letter, before_end};
ghost use Rattle.iso8211_formats.specs.Reading.{items_text, at_most, behind};
ghost use Rattle.arrayvec.specs.ArrayVec.{array_vec_len};

use crate::format::{Format, FormatList};
use crate::text::{cut, digit_count, read_number};

/// Ends a field.
const FIELD_TERMINATOR: u8 = 0x1E;

/// Whether this is the letter of a format for text.
fn is_letter_for_text(letter: u8) -> bool
    ensures { result ≡ is_text_letter letter }
{
    letter == b'A' || letter == b'I' || letter == b'R'
}

/// `A`, `I` or `R`.
#[tactic(auto, unfolding(crate::specs::Reading::open_format))]
fn read_open(letter: u8) -> Option<Format>
    ensures { result ≡ open_format letter }
{
    if is_letter_for_text(letter) {
        Some(Format::TextOpen)
    } else {
        None
    }
}

/// `b11` and its kin, without the `b`.
#[tactic(auto, unfolding(crate::specs::Reading::binary_format))]
fn read_binary(sign: u8, digit: u8) -> Option<Format>
    ensures { result ≡ binary_format sign digit }
{
    if digit != b'1' && digit != b'2' && digit != b'4' {
        return None;
    }
    match sign {
        b'1' => Some(Format::Unsigned(digit - b'0')),
        b'2' => Some(Format::Signed(digit - b'0')),
        _ => None,
    }
}

/// The format of a letter with a width.
#[tactic(auto, unfolding(crate::specs::Reading::format_with))]
fn with_width(letter: u8, width: u32) -> Option<Format>
    ensures { result ≡ format_with letter width }
{
    if is_letter_for_text(letter) {
        Some(Format::Text(width))
    } else if letter == b'B' && width % 8 == 0 {
        Some(Format::Bits(width))
    } else {
        None
    }
}

/// What stands behind a letter and `(`: `)`, which only `A` may have, or a width and `)`.
#[tactic(auto, unfolding(crate::specs::Reading::sized_format))]
fn read_sized(letter: u8, inner: &[u8]) -> Option<Format>
    ensures { result ≡ sized_format letter inner.now }
{
    let Some((digits, after)) = cut(inner, b')') else {
        return None;
    };
    if !after.is_empty() {
        return None;
    }
    if digits.is_empty() {
        return if letter == b'A' {
            Some(Format::TextOpen)
        } else {
            None
        };
    }
    match read_number(digits) {
        Some(width) => with_width(letter, width),
        None => None,
    }
}

/// The format that the text stands for.
#[tactic(auto, unfolding(crate::specs::Reading::format_of))]
fn read_format(text: &[u8]) -> Option<Format>
    ensures { result ≡ format_of text.now }
{
    match text {
        [letter] => read_open(*letter),
        [letter, b'(', inner @ ..] if !inner.is_empty() => read_sized(*letter, inner),
        [b'b', sign, digit] => read_binary(*sign, *digit),
        _ => None,
    }
}

/// How often an item counts: once where there are no digits.
#[tactic(auto, unfolding(crate::specs::Reading::count_of))]
fn read_count(digits: &[u8]) -> Option<u32>
    ensures { result ≡ count_of digits.now }
{
    if digits.is_empty() {
        Some(1)
    } else {
        read_number(digits)
    }
}

/// How often an item counts, and its format.
#[tactic(auto, unfolding(crate::specs::Reading::item_of))]
fn read_item(text: &[u8]) -> Option<(u32, Format)>
    ensures { option_map (λ item. replicate item.0 item.1) result ≡ item_of text.now }
{
    let (digits, format) = text.split_at(digit_count(text));
    match read_count(digits) {
        Some(count) => match read_format(format) {
            Some(format) => Some((count, format)),
            None => None,
        },
        None => None,
    }
}

/// Adds a format so many times.
fn push_repeated(formats: &mut FormatList, format: Format, count: u32)
    requires { array_vec_len formats.old + count ≤ 64 }
    ensures { formats.new.items ≡ formats.old.items ++ replicate count format }
{
    for _ in 0..count {
        formats.push(format);
    }
}

/// Adds the formats of an item, and says whether it is one and there was room for them.
fn push_item(formats: &mut FormatList, text: &[u8]) -> bool
    ensures { (if result then Some formats.new.items else None)
        ≡ at_most 64 (behind formats.old.items (item_of text.now)) }
{
    let Some((count, format)) = read_item(text) else {
        return false;
    };
    if count as usize > formats.remaining_capacity() {
        return false;
    }
    push_repeated(formats, format, count);
    true
}

/// The formats of items with commas between them, at most 64.
fn read_items(text: &[u8]) -> Option<FormatList>
    ensures { option_map (λ formats. formats.items) result
        ≡ at_most 64 (items_of (slice_split (λ byte. byte == 44) text.now)) }
{
    let mut formats = FormatList::new();
    let mut rest = text;
    while let Some((item, after)) = cut(rest, b',') {
        if !push_item(&mut formats, item) {
            return None;
        }
        rest = after;
    }
    if push_item(&mut formats, rest) {
        Some(formats)
    } else {
        None
    }
}

/// A text without `)` and the field terminator at its end.
fn without_end(text: &[u8]) -> Option<&[u8]>
    ensures { option_map (λ front. front.now) result ≡ before_end text.now }
{
    text.strip_suffix(&[b')', FIELD_TERMINATOR])
}

/// The items of the format controls with the field terminator behind them.
#[tactic(auto, unfolding(crate::specs::Reading::items_text))]
fn items_of_controls(controls: &[u8]) -> Option<&[u8]>
    ensures { option_map (λ items. items.now) result ≡ items_text controls.now }
{
    match controls {
        [b'(', rest @ ..] => without_end(rest),
        _ => None,
    }
}

/// The formats of the format controls with the field terminator behind them, at most 64.
#[tactic(auto, unfolding(crate::specs::Reading::formats_of, crate::specs::Reading::at_most))]
pub fn read_formats(controls: &[u8]) -> Option<FormatList>
    ensures { option_map (λ formats. formats.items) result ≡ at_most 64 (formats_of controls.now) }
{
    match items_of_controls(controls) {
        Some(items) => read_items(items),
        None => None,
    }
}
