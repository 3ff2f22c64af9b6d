//! A line of a table.
//!
//! Its names are codes by now, so that it can be held against features, which have no acronyms.

use crate::condition::ConditionList;
use crate::instruction::InstructionList;
use chart_model::Geom;

/// What a line of a table says: the instructions for objects of a class and a geometry of which the conditions hold.
#[derive(Debug, Drop)]
pub struct TableLine {
    /// The code of the object class.
    pub class: u16,
    pub geom: Geom,
    /// The display priority, 0 to 9: the greater is drawn later.
    pub priority: u8,
    pub conditions: ConditionList,
    pub instructions: InstructionList,
}
