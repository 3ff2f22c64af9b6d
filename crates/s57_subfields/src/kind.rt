//! What a subfield may hold.
//!
//! A value can be tested without being made, so that the fault of a list is found without memory.

ghost use Rattle.std.specs.Prelude.{◌≡◌, is_some, Option, IfOk, IfSome};
ghost use Rattle.iso8211_records.specs.declared.value.Value.{Value as RawValue};

use iso8211_records::Value;
use std::alloc::{AllocError, Global};

/// What a subfield may hold: a number of some width, a text, a name.
pub trait Kind {
    /// What such a value is read as.
    type Output: Drop;

    /// What a value is read as, and nothing where it has the wrong kind or is out of its width or range.
    ghost reads: { Self → RawValue → Option Self.Output };

    /// What holds of each value that is read.
    ghost holds: { Self → Self.Output → Type 0 };

    /// Reads a value.
    fn read(&self, alloc: Global, value: &Value) -> Result<Option<Self::Output>, AllocError>
        ensures found { IfOk result (λ found. found ≡ reads self.now value.now) }
        ensures holds { IfOk result (λ found. IfSome found (holds self.now)) };

    /// Whether a value is what it has to be. It takes no memory.
    fn accepts(&self, value: &Value) -> bool
        ensures accepted { result ≡ is_some (reads self.now value.now) };
}
