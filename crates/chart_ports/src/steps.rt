//! A count of steps that costs nothing: of decoded records, or of features looked at.
//!
//! A clause bounds by it how much a call looks at. The blank of a ledger, of which a count is made, is in the hands of
//! the program's start and of tests alone: code below can't begin a count of its own and leave this one as it was.

ghost use Rattle.std.specs.Prelude.{◌≡◌, ◌+◌, ◌<◌};

use std::marker::Model;
use std::sync::ledger::{Blank, Book, Ledger, Share};

/// How many steps were taken. It takes no bytes, and only `tick` raises it.
///
/// Each ledger has one counter. Code that is generic in the ledger can't make another, so a bound
/// on the count speaks of all steps.
#[derive(Drop)]
pub struct Steps<C: Ledger> {
    book: Book<C>,
    share: Share<C>,
}

impl<C: Ledger> Model for Steps<C> {
    ghost use Rattle.std.specs.Prelude.{ℕ, ◌<◌};

    ghost Value = { ℕ };

    ghost view = { λ steps. steps.book.total };

    ghost invariant = { λ steps. 0 < steps.share.parts };
}

impl<C: Ledger> Steps<C> {
    /// The counter of a new ledger, at 0.
    pub fn new(blank: Blank) -> Steps<C>
        requires name { blank.name ≡ C.name }
        requires parts { blank.parts ≡ C.parts }
        requires share { 0 < C.parts }
        ensures { result ≡ 0 }
    {
        let (book, share) = blank.open::<C>();
        Steps { book, share }
    }

    /// Counts one step.
    pub fn tick(&mut self)
        ensures { self.new ≡ self.old + 1 }
    {
        self.book.add(&mut self.share, 1);
    }
}
