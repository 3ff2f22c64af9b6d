//! The paths of files in an exchange set.
//!
//! A path names a file below the catalogue's folder. It comes from outside, so one that leads elsewhere is refused.

ghost use Rattle.std.specs.Prelude.{◌≡◌, IfOk, map};
ghost use Rattle.std.specs.List.{list_any};
ghost use Rattle.exchange_catalogue.specs.Paths.{is_slash, slashed, path_of, name_of};
ghost use Rattle.exchange_catalogue.specs.Paths.{is_unprintable, is_rooted, has_parent, is_bad_path};

use chart_model::Octets;
use std::alloc::{AllocError, Global};

/// The most bytes of a path.
const MOST_BYTES: usize = 255;

/// A byte of a path.
fn slashed(byte: u8) -> u8
    ensures { result ≡ slashed byte }
{
    if byte == b'\\' { b'/' } else { byte }
}

/// The bytes of a path.
fn slashed_bytes(alloc: Global, file: &[u8]) -> Result<Vec<u8>, AllocError>
    ensures { IfOk result (λ path. path.items ≡ map slashed file.now) }
{
    file.iter().map(|byte| slashed(*byte)).collect(alloc)
}

/// The path that a text is: with each `\` turned into `/`.
pub(crate) fn read_path(alloc: Global, file: &[u8]) -> Result<Octets, AllocError>
    ensures { IfOk result (λ path. path ≡ path_of file.now) }
{
    Ok(Octets::from_vec(slashed_bytes(alloc, file)?))
}

/// The name of the file of a path: what follows the last `/`. It takes no memory.
pub(crate) fn name_of(path: &[u8]) -> &[u8]
    ensures { result.now ≡ name_of path.now }
{
    let mut start = 0;
    for (at, byte) in path.iter().enumerate() {
        if *byte == b'/' {
            start = at + 1;
        }
    }
    &path[start..]
}

/// Whether a byte is no printable ASCII character.
fn has_unprintable(path: &[u8]) -> bool
    ensures { result ≡ list_any is_unprintable path.now }
{
    path.iter().any(|byte| *byte < 0x20 || *byte > 0x7E)
}

/// Whether the path begins with `/`.
fn is_rooted(path: &[u8]) -> bool
    ensures { result ≡ is_rooted path.now }
{
    match path.first() {
        Some(byte) => *byte == b'/',
        None => false,
    }
}

/// Whether one of the parts between the `/` is `..`, which names the folder above.
fn has_parent(path: &[u8]) -> bool
    ensures { result ≡ has_parent path.now }
{
    path.split(|byte| *byte == b'/')
        .any(|part| part == b"..".as_slice())
}

/// Whether the path is one that is not fetched. It takes no memory.
#[tactic(auto, unfolding(crate::specs::Paths::is_bad_path))]
pub(crate) fn is_bad_path(path: &[u8]) -> bool
    ensures { result ≡ is_bad_path path.now }
{
    path.len() > MOST_BYTES || has_unprintable(path) || is_rooted(path) || has_parent(path)
}
