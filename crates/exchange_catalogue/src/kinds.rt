//! What the subfields of a catalogue's entries may hold.
//!
//! Any text is taken for either. Which paths are fetched is asked where the files are put in order, and of an
//! implementation it only matters whether it is `BIN`.

ghost use Rattle.std.specs.Prelude.{◌≡◌};
ghost use Rattle.exchange_catalogue.specs.Entries.{text_of, binary_of};

use chart_model::Octets;
use iso8211_records::Value;
use s57_subfields::Kind;
use std::alloc::{AllocError, Global};

/// Any text: the path of a file (FILE).
#[derive(Clone, Copy, Debug)]
pub(crate) struct FilePath;

/// Any text, read as whether it says that a file is binary (IMPL).
#[derive(Clone, Copy, Debug)]
pub(crate) struct Implementation;

impl Kind for FilePath {
    type Output = Octets;

    ghost reads = { λ _. text_of };

    ghost holds = { λ _ _. Unit {0} };

    fn read(&self, alloc: Global, value: &Value) -> Result<Option<Octets>, AllocError> {
        match value {
            Value::Text(text) => Ok(Some(Octets::from_slice(alloc, text.as_slice())?)),
            _ => Ok(None),
        }
    }

    fn accepts(&self, value: &Value) -> bool {
        matches!(value, Value::Text(_))
    }
}

impl Kind for Implementation {
    type Output = bool;

    ghost reads = { λ _. binary_of };

    ghost holds = { λ _ _. Unit {0} };

    fn read(&self, _alloc: Global, value: &Value) -> Result<Option<bool>, AllocError> {
        match value {
            Value::Text(text) => Ok(Some(text.as_slice() == b"BIN".as_slice())),
            _ => Ok(None),
        }
    }

    fn accepts(&self, value: &Value) -> bool {
        matches!(value, Value::Text(_))
    }
}
