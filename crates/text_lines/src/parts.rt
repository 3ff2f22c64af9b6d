//! The parts of a line between bytes that part it.
//!
//! One byte parts two parts, and every such byte does: so parts may be empty, and joined they are the text again.

ghost use Rattle.std.specs.Prelude.{◌≡◌, ◌≢◌, ◌==◌, ◌<◌, length, ◌∷◌, [], ◌++◌, position, All, List, ℕ, IfSome, IfNone};
ghost use Rattle.std.specs.Iterator.{at_most};
ghost use Rattle.std.specs.List.{join_with_byte};
ghost use Rattle.std.specs.Map.Iter.{TakesFirst};
ghost use Rattle.text_lines.specs.Lines.{parts_at, Lacks};

use std::marker::Model;

/// Where a byte first stands.
fn place_of(text: &[u8], parting: u8) -> Option<usize>
    ensures { result ≡ position (λ byte. byte == parting) text.now }
{
    text.iter().position(|byte| *byte == parting)
}

/// The part of a text before the first such byte, and what stands behind that; the whole text where it has no such
/// byte. It takes no memory.
pub fn cut_part(text: &[u8], parting: u8) -> (&[u8], Option<&[u8]>)
    ensures more { IfSome result.1 (λ rest.
        parts_at parting text.now ≡ result.0.now ∷ parts_at parting rest.now) }
    ensures last { IfNone result.1 (parts_at parting text.now ≡ result.0.now ∷ []) }
    ensures shorter { IfSome result.1 (λ rest. length rest.now < length text.now) }
{
    match place_of(text, parting) {
        Some(at) => (&text[..at], Some(&text[at + 1..])),
        None => (text, None),
    }
}

/// The parts that are left of a text. Contracts see their list.
#[derive(Drop)]
pub struct Parts<'a> {
    /// What stands behind the last part that was given, none where that was the text's last.
    rest: Option<&'a [u8]>,
    parting: u8,
}

impl<'a> Model for Parts<'a> {
    ghost use Rattle.std.specs.Prelude.{List, ℕ};
    ghost use Rattle.std.specs.Option.{option_copied};
    ghost use Rattle.text_lines.specs.Lines.{parts_of_rest};

    ghost Value = { List (List ℕ) };

    ghost view = { λ left. parts_of_rest left.parting (option_copied left.rest) };
}

impl<'a> Iterator for Parts<'a> {
    type Item = &'a [u8];

    ghost next_gives = { TakesFirst (λ part. part.now) };

    ghost remaining = { λ left. at_most (length left) };

    fn next(&mut self) -> Option<&'a [u8]> {
        let text = self.rest?;
        let (part, rest) = cut_part(text, self.parting);
        self.rest = rest;
        Some(part)
    }
}

/// The parts of a text in order, one at least. They take no memory.
pub fn parts_of(text: &[u8], parting: u8) -> Parts
    ensures { result ≡ parts_at parting text.now }
{
    Parts {
        rest: Some(text),
        parting,
    }
}

/// A text's parts, joined by the byte that parts them, are the text; and the parts of joined texts are these, where
/// none of them has that byte.
pub fn parts_are_joined()
    ensures joined { (parting : ℕ) (text : List ℕ) → join_with_byte parting (parts_at parting text) ≡ text }
    ensures first { (parting : ℕ) (part rest : List ℕ) → Lacks parting part →
        parts_at parting (part ++ parting ∷ rest) ≡ part ∷ parts_at parting rest }
    ensures alone { (parting : ℕ) (part : List ℕ) → Lacks parting part → parts_at parting part ≡ part ∷ [] }
    ensures parted { (parting : ℕ) (part : List ℕ) (parts : List (List ℕ)) → All (Lacks parting) (part ∷ parts) →
        parts_at parting (join_with_byte parting (part ∷ parts)) ≡ part ∷ parts }
    // No part has the byte that parts.
    ensures lacking { (parting : ℕ) (text : List ℕ) → All (Lacks parting) (parts_at parting text) }
{}
