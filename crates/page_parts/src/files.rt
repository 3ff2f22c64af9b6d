//! Files of a cell, each of which is a text.
//!
//! Of a file's bytes nothing is looked at but their number: one of more than 8,388,608 bytes is never loaded, and so is
//! refused. A file that is read stands behind the pointer that copies of what is held share.

ghost use Rattle.std.specs.Prelude.{◌≡◌};

use crate::fault::PageFault;
use crate::lists::Part;
use crate::texts::{put_text, read_span};
use chart_model::{Octets, Shared};
use std::alloc::{AllocError, Global};

/// The most bytes of a file.
const LONGEST_FILE: usize = 8_388_608;

impl Part for Shared<Octets> {
    ghost use Rattle.std.specs.Prelude.{◌<◌, ◌^◌, length};
    ghost use Rattle.page_parts.specs.Texts.{file_at, text};

    ghost part_at = { file_at };

    ghost spelling = { text };

    ghost is_in_range = { λ file. length file < 2 ^ 64 };

    #[tactic(auto, unfolding(crate::specs::Texts::file_at))]
    fn read(alloc: Global, bytes: &[u8]) -> Result<(Shared<Octets>, &[u8]), PageFault> {
        let (file, rest) = read_span(bytes)?;
        if file.len() > LONGEST_FILE {
            return Err(PageFault::Unspelled);
        }
        let file = Octets::from_slice(alloc, file)?;
        Ok((Shared::of(alloc, file)?, rest))
    }

    fn put(&self, out: &mut Octets) -> Result<(), AllocError> {
        put_text(out, self.get().as_slice())
    }
}
