//! What a bank holds.
//!
//! The buffer that the file was read into is kept, and where the checkpoint and each body lie in it: a bank may be
//! large, so no part of it is copied before it is decoded. Bodies are bytes here. What they say is known to the crate
//! above, which makes and reads them.

use std::alloc::Global;
use std::marker::Model;

/// Where a part of a bank's bytes begins, and where it ends.
#[derive(Clone, Copy, Debug)]
pub(crate) struct Span {
    pub(crate) from: usize,
    pub(crate) to: usize,
}

/// What a bank holds: a checkpoint, and the bodies of the records behind it, in the order in which they were appended.
/// They are parts of the bytes that were read. Contracts see the lists.
#[derive(Debug, Drop)]
pub struct BankContent {
    bytes: Vec<u8>,
    checkpoint: Span,
    bodies: Vec<Span>,
}

impl Model for BankContent {
    ghost use Rattle.std.specs.Prelude.{length};
    ghost use Rattle.std.specs.List.{All};
    ghost use Rattle.bank_journal.specs.Content.{Content};

    ghost Value = { Content };

    ghost use Rattle.bank_journal.specs.Parts.{content_at, IsWithin};

    ghost view = { λ content. content_at content.bytes.items content.checkpoint content.bodies.items };

    ghost invariant = { λ content. IsWithin (length content.bytes.items) content.checkpoint
        × All (IsWithin (length content.bytes.items)) content.bodies.items };
}

impl BankContent {
    ghost use Rattle.std.specs.Prelude.{◌≡◌, ◌<◌, get_or, length, []};
    ghost use Rattle.std.specs.List.{All};
    ghost use Rattle.bank_journal.specs.Bank.{empty_content};
    ghost use Rattle.bank_journal.specs.Parts.{content_at, IsWithin};

    /// No checkpoint, and no record. It takes no memory.
    pub(crate) fn empty(alloc: Global) -> BankContent
        ensures { result ≡ empty_content }
    {
        BankContent {
            bytes: Vec::new(alloc),
            checkpoint: Span { from: 0, to: 0 },
            bodies: Vec::new(alloc),
        }
    }

    /// The bytes of a bank, with its checkpoint and its bodies at these places. It takes no memory.
    pub(crate) fn of_spans(bytes: Vec<u8>, checkpoint: Span, bodies: Vec<Span>) -> BankContent
        requires checkpoint { IsWithin (length bytes.items) checkpoint }
        requires bodies { All (IsWithin (length bytes.items)) bodies.items }
        ensures { result ≡ content_at bytes.items checkpoint bodies.items }
    {
        BankContent {
            bytes,
            checkpoint,
            bodies,
        }
    }

    /// The checkpoint; none for the empty store. It takes no memory.
    pub fn checkpoint(&self) -> &[u8]
        ensures { result.now ≡ self.now.checkpoint }
    {
        let span = self.checkpoint;
        &self.bytes[span.from..span.to]
    }

    /// How many records stand behind the checkpoint. It takes no memory.
    pub fn body_count(&self) -> usize
        ensures { result ≡ length self.now.bodies }
    {
        self.bodies.len()
    }

    /// The body of the record with this number, counted from 0. It takes no memory.
    pub fn body(&self, number: usize) -> &[u8]
        requires { number < length self.now.bodies }
        ensures { result.now ≡ get_or self.now.bodies number [] }
    {
        let span = self.bodies[number];
        &self.bytes[span.from..span.to]
    }
}
