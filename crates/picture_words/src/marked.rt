//! The borders of a view, marked.
//!
//! A border may begin with `-`, as an option does, and a command that took such words for values wherever they stand
//! would be none of those that `clap` tells exactly. So each of the four words behind `--view` gets a `=` before it.

ghost use Rattle.std.specs.Prelude.{◌≡◌, map, string_bytes, IfOk};
ghost use Rattle.picture_words.specs.Marked.{after, marked, marked_words, next_of};

use std::alloc::{AllocError, Global};

/// What the next word is.
#[derive(Clone, Copy, Debug, PartialEq, Eq)]
enum Next {
    /// The program's name.
    Program,
    /// An option, or a value of one, or a file.
    Word,
    /// A border, one of so many that are left.
    Border(u8),
    /// A file, whatever it begins with.
    File,
}

/// What follows a word that is no border.
fn next_of(word: &str) -> Next
    ensures { result ≡ next_of word.now }
{
    match word {
        "--" => Next::File,
        "--view" => Next::Border(4),
        _ => Next::Word,
    }
}

impl Next {
    /// What follows a word.
    fn after(self, word: &str) -> Next
        ensures { result ≡ after self word.now }
    {
        match self {
            Next::Program => Next::Word,
            Next::Word => next_of(word),
            Next::Border(left) if left <= 1 => Next::Word,
            Next::Border(left) => Next::Border(left - 1),
            Next::File => Next::File,
        }
    }

    /// A word as it is handed on.
    fn marked(self, alloc: Global, word: &str) -> Result<String, AllocError>
        ensures { IfOk result (λ text. string_bytes text ≡ marked self word.now) }
    {
        let mut text = String::new(alloc);
        if let Next::Border(_) = self {
            text.push_str("=")?;
        }
        text.push_str(word)?;
        Ok(text)
    }
}

/// The words, the program's name first, each border marked.
pub(crate) fn marked_words(alloc: Global, words: &[String]) -> Result<Vec<String>, AllocError>
    ensures { IfOk result (λ marked. map string_bytes marked.items ≡ marked_words (map string_bytes words.now)) }
{
    let mut marked = Vec::new(alloc);
    let mut next = Next::Program;
    for word in words {
        let word = word.as_str();
        marked.push(next.marked(alloc, word)?)?;
        next = next.after(word);
    }
    Ok(marked)
}
