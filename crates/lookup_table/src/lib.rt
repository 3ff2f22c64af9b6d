//! Lookup tables: which instructions draw an object of a class and a geometry.
//!
//! A table is a file of lines (`text_lines`). A line that says something is `CLASS GEOM PRIORITY CONDITIONS
//! INSTRUCTIONS`, parted by single spaces:
//!
//! - CLASS is the acronym of an object class;
//! - GEOM is `A` for areas, `L` for lines or `P` for points;
//! - PRIORITY is a digit: what has a higher one is drawn later;
//! - CONDITIONS is `-` for none, or conditions joined by `+`. A condition is the acronym of an attribute and `=TEXT`,
//!   its value is this text; `=?`, the attribute is there and empty; or `=*`, it is there and not empty. TEXT is one or
//!   more bytes from 0x21 to 0x7E without `+`;
//! - INSTRUCTIONS, the rest of the line, is `-` for none, or instructions joined by `;`. An instruction is two capital
//!   letters and a text in parentheses, of bytes from 0x20 to 0x7E without `(`, `)` and `;`. `CS(..)` calls a
//!   conditional symbology procedure: DEPARE01, DEPCNT02, SOUNDG02, OBSTRN04 or WRECKS02.
//!
//! Any other line is bad, and so is each line behind the 10,000th, whatever it holds. The acronyms stand in the object
//! catalogue. Of the first line with a fault the first is answered: that it is bad, that a name is unknown, that a
//! procedure is.
#![tactic(auto)]

mod condition;
mod fault;
mod index;
mod instruction;
mod laws;
mod line;
mod named;
mod read;
mod table;
mod written;

pub use condition::{Condition, ConditionList, Test};
pub use fault::TableFault;
pub use instruction::{Instruction, InstructionList, Procedure};
pub use laws::tables_are_read;
pub use line::TableLine;
pub use read::read_table;
pub use table::Table;
pub use written::{WrittenCondition, WrittenLine};
