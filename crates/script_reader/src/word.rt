//! The names of files on the lines of a script.
//!
//! A name is handed to the outside as text, so it is held as text; which bytes may stand in it is a fact of the type.

ghost use Rattle.std.specs.Prelude.{◌≡◌, ◌↔◌, IfOk, OnErr, IsTrue, All};
ghost use Rattle.std.specs.Option.{SomeIff};
ghost use Rattle.chart_model.specs.Key.{IsVisible};
ghost use Rattle.script_reader.specs.Word.{IsWord};

use std::alloc::{AllocError, Global};
use std::marker::Model;
use std::str;

/// The most bytes of a word.
const LIMIT: usize = 255;

/// The name of a file: 1 to 255 visible ASCII characters (0x21 to 0x7E).
#[derive(Debug, Drop)]
pub struct Word {
    text: String,
}

impl Model for Word {
    ghost use Rattle.std.specs.Prelude.{List, ℕ, string_bytes};
    ghost use Rattle.script_reader.specs.Word.{IsWord};

    ghost Value = { List ℕ };

    ghost view = { λ word. string_bytes word.text };

    ghost invariant = { λ word. IsWord (string_bytes word.text) };
}

/// Whether each byte is a visible ASCII character.
fn is_visible(bytes: &[u8]) -> bool
    ensures { IsTrue result ↔ All IsVisible bytes.now }
{
    bytes.iter().all(|byte| matches!(byte, 0x21..=0x7E))
}

/// Whether the bytes are a word.
fn is_word(bytes: &[u8]) -> bool
    ensures { IsTrue result ↔ IsWord bytes.now }
{
    !bytes.is_empty() && bytes.len() <= LIMIT && is_visible(bytes)
}

impl Word {
    /// The word of these bytes, where they are one. Memory is taken for a word alone.
    pub fn from_bytes(alloc: Global, bytes: &[u8]) -> Result<Option<Word>, AllocError>
        ensures word { IfOk result (λ word. SomeIff word (IsWord bytes.now) bytes.now) }
        ensures memory { OnErr result (IsWord bytes.now) }
    {
        if !is_word(bytes) {
            return Ok(None);
        }
        match str::from_utf8(bytes) {
            Ok(text) => {
                let text = String::from_str(alloc, text)?;
                Ok(Some(Word { text }))
            }
            Err(_) => unreachable!(),
        }
    }

    /// The word as text. It takes no memory.
    pub fn as_str(&self) -> &str
        ensures bytes { result.now ≡ self.now }
        ensures word { IsWord result.now }
    {
        self.text.as_str()
    }
}
