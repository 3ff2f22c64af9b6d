//! The names and procedures of a line, looked up.
//!
//! They are looked up when the whole line is read: a bad line is told as bad, even where a name of it is unknown too.

ghost use Rattle.std.specs.Prelude.{◌≡◌, IfOk};
ghost use Rattle.lookup_table.specs.Answers.{AnswersNamed};
ghost use Rattle.lookup_table.specs.Reading.{each};
ghost use Rattle.lookup_table.specs.Named.{named_condition, instruction_in};
ghost use Rattle.lookup_table.specs.Lines.{coded_line_or_fault};

use crate::condition::Condition;
use crate::fault::TableFault;
use crate::instruction::{Instruction, read_instruction};
use crate::line::TableLine;
use crate::written::{WrittenCondition, WrittenLine};
use chart_model::{Octets, Sequence};
use object_catalogue::Catalogue;
use std::alloc::{AllocError, Global};

/// A condition with its attribute's code, where that is in the catalogue.
fn name_condition(catalogue: &Catalogue, condition: WrittenCondition) -> Option<Condition>
    ensures { result ≡ named_condition catalogue.now condition }
{
    let attribute = catalogue.attribute_code(&condition.attribute)?;
    Some(Condition {
        attribute,
        test: condition.test,
    })
}

/// Conditions with their attributes' codes, where all of these are in the catalogue.
fn name_conditions(
    alloc: Global,
    catalogue: &Catalogue,
    written: Sequence<WrittenCondition>,
) -> Result<Option<Sequence<Condition>>, AllocError>
    ensures { IfOk result (λ conditions. conditions ≡ each (named_condition catalogue.now) written) }
{
    let mut conditions = Sequence::new(alloc);
    for condition in written.into_vec() {
        let Some(condition) = name_condition(catalogue, condition) else {
            return Ok(None);
        };
        conditions.push(condition)?;
    }
    Ok(Some(conditions))
}

/// The instructions that texts write, where all their procedures are there.
fn read_instructions(
    alloc: Global,
    written: Sequence<Octets>,
) -> Result<Option<Sequence<Instruction>>, AllocError>
    ensures { IfOk result (λ instructions. instructions ≡ each instruction_in written) }
{
    let mut instructions = Sequence::new(alloc);
    for text in written.into_vec() {
        let Some(instruction) = read_instruction(text) else {
            return Ok(None);
        };
        instructions.push(instruction)?;
    }
    Ok(Some(instructions))
}

/// The line of this number with codes in place of acronyms, or its fault: a name that isn't in the catalogue, before a
/// procedure that isn't there.
pub fn name_line(
    alloc: Global,
    catalogue: &Catalogue,
    number: u64,
    written: WrittenLine,
) -> Result<TableLine, TableFault>
    ensures { AnswersNamed result (coded_line_or_fault catalogue.now number written) }
{
    let WrittenLine {
        class,
        geom,
        priority,
        conditions,
        instructions,
    } = written;
    let Some(class) = catalogue.class_code(&class) else {
        return Err(TableFault::UnknownName(number));
    };
    let Some(conditions) = name_conditions(alloc, catalogue, conditions)? else {
        return Err(TableFault::UnknownName(number));
    };
    let Some(instructions) = read_instructions(alloc, instructions)? else {
        return Err(TableFault::UnknownProcedure(number));
    };
    Ok(TableLine {
        class,
        geom,
        priority,
        conditions,
        instructions,
    })
}
