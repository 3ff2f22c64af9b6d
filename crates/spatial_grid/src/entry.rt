//! Entries: boxes in buckets.
//!
//! All entries stand in one list in the order of their buckets, and the buckets of a row follow each other. So those of
//! a row that an area covers are one slice, found by two binary searches, and no bucket has a list of its own.

ghost use Rattle.std.specs.Prelude.{◌≡◌, ◌≤◌, IfOk, length};
ghost use Rattle.std.specs.Prelude.{true, false, nat_lt, nat_le};
ghost use Rattle.std.specs.List.{filter};
ghost use Rattle.std.specs.List.Sorted.{IsNonDecreasingBy, IsPartitionPoint};
ghost use Rattle.spatial_grid.specs.Buckets.{Keeps, bucket_of};
ghost use Rattle.spatial_grid.specs.Looked.{stands_between};

use std::alloc::AllocError;

/// The bucket beside the others, of boxes that cover more than 64 of them.
pub(crate) const BESIDE: u16 = 4_096;

/// A box that stands in a bucket.
#[derive(Clone, Copy, Debug)]
pub struct Entry {
    /// The bucket: 64 times its row and its column, or the one beside all others.
    pub bucket: u16,
    /// The place of the box among those of the chart.
    pub place: u32,
}

/// Puts entries in the order of their buckets.
pub(crate) fn in_order(mut entries: Vec<Entry>) -> Result<Vec<Entry>, AllocError>
    ensures ordered { IfOk result (λ sorted. IsNonDecreasingBy bucket_of sorted.items) }
    ensures kept { IfOk result (λ sorted. Keeps entries.items sorted.items) }
{
    entries.sort_by_key(|entry| entry.bucket)?;
    Ok(entries)
}

/// The place where the entries of the buckets before one end.
fn end_before(entries: &[Entry], bucket: u16) -> usize
    requires { IsNonDecreasingBy bucket_of entries.now }
    ensures within { result ≤ length entries.now }
    ensures parted { IsPartitionPoint (λ entry. nat_lt entry.bucket bucket ≡ true)
        (λ entry. nat_lt entry.bucket bucket ≡ false) entries.now result }
{
    entries.partition_point(|entry| entry.bucket < bucket)
}

/// The place where the entries of the buckets up to one end.
fn end_with(entries: &[Entry], bucket: u16) -> usize
    requires { IsNonDecreasingBy bucket_of entries.now }
    ensures within { result ≤ length entries.now }
    ensures parted { IsPartitionPoint (λ entry. nat_le entry.bucket bucket ≡ true)
        (λ entry. nat_le entry.bucket bucket ≡ false) entries.now result }
{
    entries.partition_point(|entry| entry.bucket <= bucket)
}

/// The entries of the buckets from one up to another. It costs two binary searches, and takes no memory.
pub(crate) fn between(entries: &[Entry], first: u16, last: u16) -> &[Entry]
    requires { IsNonDecreasingBy bucket_of entries.now }
    ensures { result.now ≡ filter (stands_between first last) entries.now }
{
    let from = end_before(entries, first);
    let to = end_with(entries, last);
    if from < to { &entries[from..to] } else { &[] }
}
