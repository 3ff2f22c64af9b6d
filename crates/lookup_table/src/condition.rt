//! What a line of a table asks of an object's attributes.
//!
//! A cell has thousands of features, and each asks several lines. So a condition names its attribute by its code, and
//! nothing is copied to test it.

ghost use Rattle.std.specs.Prelude.{◌≡◌};
ghost use Rattle.std.specs.Option.{option_copied};
ghost use Rattle.std.specs.List.{list_all};
ghost use Rattle.std.specs.FinMap as map;
ghost use Rattle.lookup_table.specs.Selection.{meets, holds};

use chart_model::{AttrMap, Octets, Sequence};

/// What an attribute's value has to be.
#[derive(Debug, Drop)]
pub enum Test {
    /// `=TEXT`: this text.
    Equals(Octets),
    /// `=?`: there and empty.
    Empty,
    /// `=*`: there and not empty.
    Filled,
}

/// A test of one attribute.
#[derive(Debug, Drop)]
pub struct Condition {
    /// The code of the attribute.
    pub attribute: u16,
    pub test: Test,
}

/// Conditions in order.
pub type ConditionList = Sequence<Condition>;

/// Whether a value, where there is one, meets a test.
fn meets(test: &Test, value: Option<&Octets>) -> bool
    ensures { result ≡ meets test.now (option_copied value.entry) }
{
    let Some(value) = value else {
        return false;
    };
    match test {
        Test::Equals(text) => value.as_slice() == text.as_slice(),
        Test::Empty => value.as_slice().is_empty(),
        Test::Filled => !value.as_slice().is_empty(),
    }
}

/// Whether a condition holds of an object with these attributes.
fn holds(condition: &Condition, attrs: &AttrMap) -> bool
    ensures { result ≡ holds attrs.now condition.now }
{
    meets(&condition.test, attrs.get(condition.attribute))
}

/// Whether all conditions hold of an object with these attributes. It takes no memory.
pub fn all_hold(conditions: &ConditionList, attrs: &AttrMap) -> bool
    ensures { result ≡ list_all (holds attrs.now) conditions.now }
{
    conditions
        .as_slice()
        .iter()
        .all(|condition| holds(condition, attrs))
}
