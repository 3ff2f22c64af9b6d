//! A line, read.
//!
//! The length of a line is not asked here: what is longer than any event spells is bad by its words.

ghost use Rattle.std.specs.Prelude.{◌≡◌, ◌↔◌, ◌<◌, ◌≢◌, length, Some, None, Ok, Err};
ghost use Rattle.script_reader.specs.declared.event.Event.{Event as EventValue};
ghost use Rattle.script_reader.specs.declared.fault.LineFault.TheVariants.{BadLine, NoMemory};
ghost use Rattle.script_reader.specs.Line.{AreInRange, Spells, IsBad, NamesFile};
ghost use Rattle.script_reader.specs.Reading.{event_in, Answers};
ghost use Rattle.text_lines.specs.Lines.{IsSilent};

use crate::event::{Event, event_on};
use crate::fault::LineFault;
use crate::laws::{lines_are_read, long_lines_are_read_by_their_front};
use std::alloc::Global;
use text_lines::is_silent;

/// What the line asks for, as the function on lists has it.
fn read(alloc: Global, line: &[u8], number: u64) -> Result<Option<Event>, LineFault>
    ensures { Answers result (event_in number line.now) }
{
    if is_silent(line) {
        return Ok(None);
    }
    match event_on(alloc, line)? {
        Some(event) => Ok(Some(event)),
        None => Err(LineFault::BadLine(number)),
    }
}

/// What the line asks for: an event where the line is an event's words, parted by single spaces; none
/// where it is empty or begins with `#`; else it is the bad line of this number. A line has neither the
/// line feed that ended it nor a carriage return before that. Of a line of more than 1,024 bytes the first
/// 1,025 are enough: it is a bad line, unless it begins with `#`.
///
/// Memory is taken for the name of a file alone.
pub fn read_line(alloc: Global, line: &[u8], number: u64) -> Result<Option<Event>, LineFault>
    ensures found { (event : EventValue) → result ≡ Ok (Some event) → Spells line.now event }
    ensures ranges { (event : EventValue) → result ≡ Ok (Some event) → AreInRange event }
    // No line that asks for an event is refused.
    ensures only { (event : EventValue) →
        Spells line.now event → result ≢ Err NoMemory → result ≡ Ok (Some event) }
    ensures none { (result ≡ Ok None) ↔ IsSilent line.now }
    ensures bad { (result ≡ Err (BadLine number)) ↔ IsBad line.now }
    // Memory runs out only where the line names a file.
    ensures memory { result ≡ Err NoMemory →
        (event : EventValue) × Spells line.now event × NamesFile event }
    ensures long { 1024 < length line.now → ¬ IsSilent line.now → result ≡ Err (BadLine number) }
    ensures function { Answers result (event_in number line.now) }
{
    lines_are_read();
    long_lines_are_read_by_their_front();
    read(alloc, line, number)
}
