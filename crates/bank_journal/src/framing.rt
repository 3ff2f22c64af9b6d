//! Bodies in the form in which they are written.
//!
//! A body is framed before anything is written, so that want of memory leaves the disk as it is.

ghost use Rattle.std.specs.Prelude.{◌≡◌, ◌+◌, IfOk, length};
ghost use Rattle.bank_journal.specs.Bank.{frame_of, IsBodyLength};

use byteorder::{BigEndian, ByteOrder};
use std::alloc::{AllocError, Global};
use std::marker::Model;

/// A body as it is written behind a closed gate: its length in four bytes, the most significant first, the body,
/// and the closed gate that will end the bank. Contracts see these bytes.
#[derive(Debug, Drop)]
pub struct Framed {
    bytes: Vec<u8>,
}

impl Model for Framed {
    ghost use Rattle.std.specs.Prelude.{List, ℕ};

    ghost Value = { List ℕ };

    ghost view = { λ framed. framed.bytes.items };
}

impl Framed {
    /// The bytes. It takes no memory.
    pub fn as_slice(&self) -> &[u8]
        ensures { result.now ≡ self.now }
    {
        self.bytes.as_slice()
    }
}

/// Frames a body, which is copied once, into room that is taken at once.
pub fn frame(alloc: Global, body: &[u8]) -> Result<Framed, AllocError>
    requires { IsBodyLength (length body.now) }
    ensures bytes { IfOk result (λ framed. framed ≡ frame_of body.now) }
    ensures length { IfOk result (λ framed. length framed ≡ length body.now + 5) }
{
    let mut length = [0; 4];
    BigEndian::write_u32(&mut length, body.len() as u32);
    let mut bytes = Vec::with_capacity(alloc, length.len() + body.len() + 1)?;
    bytes.extend_from_slice(&length)?;
    bytes.extend_from_slice(body)?;
    bytes.push(0)?;
    Ok(Framed { bytes })
}
