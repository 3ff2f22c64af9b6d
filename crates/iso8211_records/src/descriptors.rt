//! The descriptors of a file's fields, by tag.
//!
//! A file describes few fields, so they are searched from the first on.

ghost use Rattle.std.specs.Prelude.{◌≡◌, ◌++◌, ◌∷◌, [], is_some, OnOk, OnErr};
ghost use Rattle.std.specs.Option.{option_copied};
ghost use Rattle.std.specs.Str.{bytes_eq};
ghost use Rattle.iso8211_records.specs.Kinds.{layout_at};

use iso8211_formats::Descriptor;
use std::alloc::{AllocError, Global};
use std::marker::Model;

/// Descriptors under the tags of their fields.
///
/// Contracts see a list of tags and layouts, in the order in which they were put in.
#[derive(Debug, Drop)]
pub struct DescriptorMap {
    pairs: Vec<([u8; 4], Descriptor)>,
}

impl Model for DescriptorMap {
    ghost use Rattle.std.specs.Prelude.{List, ℕ};
    ghost use Rattle.iso8211_formats.specs.Layout.{Layout};

    ghost Value = { List (List ℕ × Layout) };

    ghost view = { λ map. map.pairs.items };
}

impl DescriptorMap {
    /// No descriptors. It takes no memory.
    pub fn new(alloc: Global) -> DescriptorMap
        ensures { result ≡ [] }
    {
        DescriptorMap {
            pairs: Vec::new(alloc),
        }
    }

    /// The descriptor under a tag: the first that was put in. It takes no memory.
    pub fn get(&self, tag: &[u8; 4]) -> Option<&Descriptor>
        ensures { option_copied result ≡ layout_at self.now tag.now }
    {
        for pair in &self.pairs {
            if is_same(&pair.0, tag) {
                return Some(&pair.1);
            }
        }
        None
    }

    /// Whether there is a descriptor under a tag. It takes no memory.
    pub fn contains(&self, tag: &[u8; 4]) -> bool
        ensures { result ≡ is_some (layout_at self.now tag.now) }
    {
        self.get(tag).is_some()
    }

    /// Puts a descriptor behind the others. Where there is no memory nothing changes.
    pub fn push(&mut self, tag: [u8; 4], descriptor: Descriptor) -> Result<(), AllocError>
        ensures ok { OnOk result (self.new ≡ self.old ++ (tag, descriptor) ∷ []) }
        ensures err { OnErr result (self.new ≡ self.old) }
    {
        self.pairs.push((tag, descriptor))?;
        Ok(())
    }
}

/// Whether two tags are the same. They are compared as numbers, since the comparison of arrays looks at them byte by
/// byte.
pub(crate) fn is_same(tag: &[u8; 4], other: &[u8; 4]) -> bool
    ensures { result ≡ bytes_eq tag.now other.now }
{
    u32::from_le_bytes(*tag) == u32::from_le_bytes(*other)
}
