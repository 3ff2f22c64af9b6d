//! A line of a table as it is written.
//!
//! It is the grammar alone, and asks no catalogue; so the law on what a text spells (`laws`) needs none either.

ghost use Rattle.std.specs.Prelude.{◌≡◌, ◌∷◌, [], IfOk, IsTrue};
ghost use Rattle.std.specs.List.{list_all};
ghost use Rattle.object_catalogue.specs.Acronym.{acronym_of};
ghost use Rattle.lookup_table.specs.Written.{is_text_byte, is_plain, is_closed, is_instruction};
ghost use Rattle.lookup_table.specs.Reading.{test_of, condition_with, condition_of};
ghost use Rattle.lookup_table.specs.Reading.{conditions_of, instruction_of, instructions_of};
ghost use Rattle.lookup_table.specs.Reading.{geom_of, priority_of, written_with, written_of};

use crate::condition::Test;
use chart_model::{Geom, Octets, Sequence};
use object_catalogue::{Acronym, read_acronym};
use std::alloc::{AllocError, Global};
use text_lines::{cut_part, parts_of};

/// A condition as it is written, with its attribute's acronym.
#[derive(Debug, Drop)]
pub struct WrittenCondition {
    pub attribute: Acronym,
    pub test: Test,
}

/// A line of a table as it is written, before its names and procedures are looked up.
#[derive(Debug, Drop)]
pub struct WrittenLine {
    pub class: Acronym,
    pub geom: Geom,
    /// 0 to 9.
    pub priority: u8,
    pub conditions: Sequence<WrittenCondition>,
    pub instructions: Sequence<Octets>,
}

/// Whether each byte may stand in the text of a condition: it is visible (0x21 to 0x7E) and no `+`.
fn are_text_bytes(text: &[u8]) -> bool
    ensures { result ≡ list_all is_text_byte text.now }
{
    text.iter()
        .all(|byte| matches!(byte, 0x21..=0x7E) && *byte != b'+')
}

/// The test that stands behind `=`.
fn read_test(alloc: Global, text: &[u8]) -> Result<Option<Test>, AllocError>
    ensures { IfOk result (λ test. test ≡ test_of text.now) }
{
    if text == b"?".as_slice() {
        return Ok(Some(Test::Empty));
    }
    if text == b"*".as_slice() {
        return Ok(Some(Test::Filled));
    }
    if text.is_empty() || !are_text_bytes(text) {
        return Ok(None);
    }
    let text = Octets::from_slice(alloc, text)?;
    Ok(Some(Test::Equals(text)))
}

/// The condition of an acronym and a test.
fn read_sides(
    alloc: Global,
    acronym: &[u8],
    test: &[u8],
) -> Result<Option<WrittenCondition>, AllocError>
    ensures { IfOk result (λ condition. condition ≡ condition_with (acronym_of acronym.now) (test_of test.now)) }
{
    let Some(attribute) = read_acronym(acronym) else {
        return Ok(None);
    };
    let Some(test) = read_test(alloc, test)? else {
        return Ok(None);
    };
    Ok(Some(WrittenCondition { attribute, test }))
}

/// The condition that a text is: an acronym, `=` and a test.
#[tactic(auto, unfolding(crate::specs::Reading::condition_in))]
fn read_condition(alloc: Global, text: &[u8]) -> Result<Option<WrittenCondition>, AllocError>
    ensures { IfOk result (λ condition. condition ≡ condition_of text.now) }
{
    let (acronym, rest) = cut_part(text, b'=');
    match rest {
        Some(test) => read_sides(alloc, acronym, test),
        None => Ok(None),
    }
}

/// The conditions that a word is: `-` for none, or conditions joined by `+`.
fn read_conditions(
    alloc: Global,
    word: &[u8],
) -> Result<Option<Sequence<WrittenCondition>>, AllocError>
    ensures { IfOk result (λ conditions. conditions ≡ conditions_of word.now) }
{
    let mut conditions = Sequence::new(alloc);
    if word == b"-".as_slice() {
        return Ok(Some(conditions));
    }
    for part in parts_of(word, b'+') {
        let Some(condition) = read_condition(alloc, part)? else {
            return Ok(None);
        };
        conditions.push(condition)?;
    }
    Ok(Some(conditions))
}

/// Whether each byte may stand in the parentheses of an instruction: 0x20 to 0x7E, but no `(`, `)` and `;`.
fn are_plain(text: &[u8]) -> bool
    ensures { result ≡ list_all is_plain text.now }
{
    text.iter().all(|byte| matches!(byte, 0x20..=0x7E) && !matches!(byte, b'(' | b')' | b';'))
}

/// Whether such bytes and `)` stand there, and nothing else.
fn is_closed(text: &[u8]) -> bool
    ensures { result ≡ is_closed text.now }
{
    match text {
        [inner @ .., b')'] => are_plain(inner),
        _ => false,
    }
}

/// Whether a text is an instruction: two capital letters and a text in parentheses.
#[tactic(auto, unfolding(crate::specs::Written::is_instruction))]
fn is_instruction(text: &[u8]) -> bool
    ensures { result ≡ is_instruction text.now }
{
    match text {
        [first, second, b'(', rest @ ..] => {
            first.is_ascii_uppercase() && second.is_ascii_uppercase() && is_closed(rest)
        }
        _ => false,
    }
}

/// The instruction that a text is.
fn read_instruction_text(alloc: Global, text: &[u8]) -> Result<Option<Octets>, AllocError>
    ensures { IfOk result (λ instruction. instruction ≡ instruction_of text.now) }
{
    if !is_instruction(text) {
        return Ok(None);
    }
    let text = Octets::from_slice(alloc, text)?;
    Ok(Some(text))
}

/// The instructions that the rest of a line is: `-` for none, or instructions joined by `;`.
fn read_instructions(alloc: Global, text: &[u8]) -> Result<Option<Sequence<Octets>>, AllocError>
    ensures { IfOk result (λ instructions. instructions ≡ instructions_of text.now) }
{
    let mut instructions = Sequence::new(alloc);
    if text == b"-".as_slice() {
        return Ok(Some(instructions));
    }
    for part in parts_of(text, b';') {
        let Some(instruction) = read_instruction_text(alloc, part)? else {
            return Ok(None);
        };
        instructions.push(instruction)?;
    }
    Ok(Some(instructions))
}

/// The geometry that a word names.
fn read_geom(word: &[u8]) -> Option<Geom>
    ensures { result ≡ geom_of word.now }
{
    match word {
        b"A" => Some(Geom::Area),
        b"L" => Some(Geom::Line),
        b"P" => Some(Geom::Point),
        _ => None,
    }
}

/// The priority that a word is: a digit.
fn read_priority(word: &[u8]) -> Option<u8>
    ensures { result ≡ priority_of word.now }
{
    match word {
        [digit @ b'0'..=b'9'] => Some(*digit - b'0'),
        _ => None,
    }
}

/// The line of its five parts.
fn read_parts(
    alloc: Global,
    class: &[u8],
    geom: &[u8],
    priority: &[u8],
    conditions: &[u8],
    instructions: &[u8],
) -> Result<Option<WrittenLine>, AllocError>
    ensures { IfOk result (λ line. line ≡ written_with (acronym_of class.now) (geom_of geom.now)
        (priority_of priority.now) (conditions_of conditions.now) (instructions_of instructions.now)) }
{
    let Some(class) = read_acronym(class) else {
        return Ok(None);
    };
    let Some(geom) = read_geom(geom) else {
        return Ok(None);
    };
    let Some(priority) = read_priority(priority) else {
        return Ok(None);
    };
    let Some(conditions) = read_conditions(alloc, conditions)? else {
        return Ok(None);
    };
    let Some(instructions) = read_instructions(alloc, instructions)? else {
        return Ok(None);
    };
    Ok(Some(WrittenLine {
        class,
        geom,
        priority,
        conditions,
        instructions,
    }))
}

/// The line that a text is: an acronym, a geometry, a digit and conditions, each with a space behind it, and
/// instructions, which are the rest.
#[tactic(auto, unfolding(crate::specs::Reading::written_in))]
pub fn read_written(alloc: Global, line: &[u8]) -> Result<Option<WrittenLine>, AllocError>
    ensures { IfOk result (λ written. written ≡ written_of line.now) }
{
    let (class, rest) = cut_part(line, b' ');
    let Some(rest) = rest else {
        return Ok(None);
    };
    let (geom, rest) = cut_part(rest, b' ');
    let Some(rest) = rest else {
        return Ok(None);
    };
    let (priority, rest) = cut_part(rest, b' ');
    let Some(rest) = rest else {
        return Ok(None);
    };
    let (conditions, rest) = cut_part(rest, b' ');
    match rest {
        Some(rest) => read_parts(alloc, class, geom, priority, conditions, rest),
        None => Ok(None),
    }
}
