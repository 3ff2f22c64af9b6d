//! What a line of a table draws.
//!
//! A procedure has to be known, since it is carried out when a chart is drawn; so a call of an unknown one refuses the
//! table. Any other instruction is passed on as the table writes it: what its symbols look like is for the display to
//! know.

ghost use Rattle.std.specs.Prelude.{◌≡◌};
ghost use Rattle.lookup_table.specs.Named.{procedure_of, instruction_in};

use chart_model::{Octets, Sequence};

/// A conditional symbology procedure (IHO S-52, `CS`): what it draws depends on the object and on what lies around it.
#[derive(Clone, Copy, Debug, PartialEq, Eq)]
pub enum Procedure {
    /// Depth areas.
    Depare01,
    /// Depth contours.
    Depcnt02,
    /// Soundings.
    Soundg02,
    /// Obstructions and underwater rocks.
    Obstrn04,
    /// Wrecks.
    Wrecks02,
}

/// What is drawn of an object.
#[derive(Debug, Drop)]
pub enum Instruction {
    /// An instruction as it is written, as `SY(BOYLAT13)`.
    Draw(Octets),
    /// What a procedure makes of the object, as `CS(DEPARE01)`.
    Call(Procedure),
}

/// Instructions in order.
pub type InstructionList = Sequence<Instruction>;

/// The procedure that a text calls, where there is one of that name.
fn procedure_of(text: &[u8]) -> Option<Procedure>
    ensures { result ≡ procedure_of text.now }
{
    if text == b"CS(DEPARE01)".as_slice() {
        Some(Procedure::Depare01)
    } else if text == b"CS(DEPCNT02)".as_slice() {
        Some(Procedure::Depcnt02)
    } else if text == b"CS(SOUNDG02)".as_slice() {
        Some(Procedure::Soundg02)
    } else if text == b"CS(OBSTRN04)".as_slice() {
        Some(Procedure::Obstrn04)
    } else if text == b"CS(WRECKS02)".as_slice() {
        Some(Procedure::Wrecks02)
    } else {
        None
    }
}

/// The instruction that a text writes; none where it calls a procedure that there isn't.
pub fn read_instruction(text: Octets) -> Option<Instruction>
    ensures { result ≡ instruction_in text }
{
    if !text.as_slice().starts_with(b"CS") {
        return Some(Instruction::Draw(text));
    }
    let procedure = procedure_of(text.as_slice())?;
    Some(Instruction::Call(procedure))
}
