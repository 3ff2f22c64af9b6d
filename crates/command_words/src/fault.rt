//! Why the words are not taken.
//!
//! What `clap` finds wrong is one fault, since the words are then refused whole; want of memory stays another.

ghost use Rattle.std.specs.Prelude.{◌≡◌, ◌↔◌};
ghost use Rattle.command_words.specs.declared.fault.WordsFault.TheVariants.{NoMemory};
ghost use Rattle.command_words.specs.Command.{IsAnsweredBy};

use clap::error::ErrorKind;
use std::alloc::AllocError;
use thiserror::Error;

/// Why the words are not taken.
#[derive(Clone, Copy, Debug, PartialEq, Eq, Error)]
pub enum WordsFault {
    /// The words don't fit the command, or a value is out of its range.
    #[error("the words do not fit")]
    Refused,
    #[error("there was no memory")]
    NoMemory,
}

impl From<AllocError> for WordsFault {
    ghost from_gives = { λ _ e. e ≡ NoMemory };

    fn from(_: AllocError) -> WordsFault {
        WordsFault::NoMemory
    }
}

impl From<clap::Error> for WordsFault {
    ghost from_gives = { λ error fault. IsAnsweredBy fault error };

    fn from(error: clap::Error) -> WordsFault {
        match error.kind() {
            ErrorKind::OutOfMemory => WordsFault::NoMemory,
            _ => WordsFault::Refused,
        }
    }
}
