//! Why the words say nothing.
//!
//! Who asks for help or for the version is answered with a text, and no picture is made.

ghost use Rattle.std.specs.Prelude.{◌≡◌};
ghost use Rattle.picture_words.specs.Command.{IsAnsweredBy};
ghost use Rattle.picture_words.specs.declared.end.WordsEnd.TheVariants.{NoMemory};

use clap::error::ErrorKind;
use std::alloc::{AllocError, AllocFailed, Global};

/// Why the words say nothing.
#[derive(Debug, Drop)]
pub enum WordsEnd {
    /// They ask for this text: the help, or the version.
    Asked(String),
    /// They don't fit the command, or a value is out of its range.
    Refused,
    NoMemory,
}

impl From<AllocError> for WordsEnd {
    ghost from_gives = { λ _ e. e ≡ NoMemory };

    fn from(_: AllocError) -> WordsEnd {
        WordsEnd::NoMemory
    }
}

impl<T: Drop> From<AllocFailed<T>> for WordsEnd {
    ghost from_gives = { λ _ e. e ≡ NoMemory };

    fn from(_: AllocFailed<T>) -> WordsEnd {
        WordsEnd::NoMemory
    }
}

/// What there is to say to words for which there are no matches.
pub(crate) fn end_of(alloc: Global, error: &clap::Error) -> WordsEnd
    ensures { IsAnsweredBy result error.now }
{
    match error.kind() {
        ErrorKind::OutOfMemory => WordsEnd::NoMemory,
        ErrorKind::DisplayHelp | ErrorKind::DisplayVersion => match format!(in alloc; "{error}") {
            Ok(text) => WordsEnd::Asked(text),
            Err(_) => WordsEnd::NoMemory,
        },
        _ => WordsEnd::Refused,
    }
}
