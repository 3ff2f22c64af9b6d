//! The frame of a record: its leader, its directory, and where its fields lie.
//!
//! All of a record's frame is tested before any field is read, so that a field is then cut out of the bytes without a
//! test. Each kind of fault has its own walk over the directory: one of an earlier kind is told first, also where it is
//! in a later entry.

ghost use Rattle.std.specs.Prelude.{◌≡◌, ◌+◌, ◌*◌, ◌^◌, ◌≤◌, ◌<◌, ◌||◌, not, length, IfOk};
ghost use Rattle.std.specs.List.{list_any, AllByRecursion};
ghost use Rattle.std.specs.Str.{bytes_eq};
ghost use Rattle.iso8211_leader.specs.Leader.{frame};
ghost use Rattle.iso8211_leader.specs.Entry.{entry_size};
ghost use Rattle.iso8211_records.specs.Answers.{Gives, GivesBy};
ghost use Rattle.iso8211_records.specs.Tags.{is_listed};
ghost use Rattle.iso8211_records.specs.Record.{IsInside, field_bytes};
ghost use Rattle.iso8211_records.specs.Reading.{record_at, directory_at, spans_at, ends_at, is_inside, is_ended};
ghost use Rattle.iso8211_records.specs.Reading.{has_closing, has_end};

use crate::descriptors::is_same;
use crate::fault::FileFault;
use chart_model::codes::FIELD_TERMINATOR;
use iso8211_leader::{Entry, Leader, read_entry, read_leader};

/// The first byte of the directory, counted from the record's leader.
const DIRECTORY: usize = 24;

/// Reads the record that begins the bytes, which stand at the place `at` of the file: its leader, and its directory in
/// place of the entries, with every field inside the record and those with a tag of the list ended.
///
/// # Errors
///
/// The first of `Leader`, `Directory`, `Span` and `Terminator` in this order; `NoMemory`.
#[tactic(auto, unfolding(crate::specs::Reading::record_at, crate::specs::Reading::leader_at))]
pub(crate) fn read_frame(
    bytes: &[u8],
    at: usize,
    tags: &[[u8; 4]],
    first: bool,
    entries: &mut Vec<Entry>,
) -> Result<Leader, FileFault>
    requires { at ≤ 2 ^ 63 }
    ensures read { GivesBy (λ leader. record { frame = frame leader; entries = entries.new.items }) result
        (record_at tags.now first at bytes.now) }
    ensures whole { IfOk result (λ leader. leader.length ≤ length bytes.now) }
    ensures inside { IfOk result (λ leader. AllByRecursion (IsInside (frame leader)) entries.new.items) }
{
    let leader = match read_leader(bytes, 0, first) {
        Ok(leader) => leader,
        Err(_) => return Err(FileFault::Leader(at)),
    };
    read_directory(bytes, at, &leader, entries)?;
    check_spans(bytes, at, &leader, entries.as_slice())?;
    check_ends(bytes, at, tags, &leader, entries.as_slice())?;
    Ok(leader)
}

/// The bytes of an entry of the record's directory.
fn size_of_entry(leader: &Leader) -> usize
    ensures size { result ≡ entry_size (frame leader.now) }
    ensures least { 4 ≤ result }
{
    4 + leader.size_length as usize + leader.size_position as usize
}

/// Reads the directory of the record that begins the bytes, in place of the entries.
fn read_directory(
    bytes: &[u8],
    at: usize,
    leader: &Leader,
    entries: &mut Vec<Entry>,
) -> Result<(), FileFault>
    requires { at ≤ 2 ^ 63 }
    ensures read { GivesBy (λ _. entries.new.items) result (directory_at at (frame leader.now) bytes.now) }
    ensures few { IfOk result (λ _. 25 + entry_size (frame leader.now) * length entries.new.items ≤ leader.now.base) }
{
    let closing = leader.base as usize - 1;
    let size = size_of_entry(leader);
    entries.clear();
    let mut place = DIRECTORY;
    while place < closing {
        match read_entry(bytes, 0, leader, place) {
            Ok(entry) => entries.push(entry)?,
            Err(_) => return Err(FileFault::Directory(at + place)),
        }
        place += size;
    }
    if is_closed(bytes, place) {
        Ok(())
    } else {
        Err(FileFault::Directory(at + place))
    }
}

/// Whether the closing byte of a directory stands at the place.
fn is_closed(bytes: &[u8], place: usize) -> bool
    ensures { result ≡ has_closing bytes.now place }
{
    place < bytes.len() && bytes[place] == FIELD_TERMINATOR
}

/// Checks that the record ends inside the bytes, and each field inside the record.
#[tactic(auto, unfolding(crate::specs::Reading::spans_at))]
fn check_spans(bytes: &[u8], at: usize, leader: &Leader, entries: &[Entry]) -> Result<(), FileFault>
    requires low { at ≤ 2 ^ 63 }
    requires few { 25 + entry_size (frame leader.now) * length entries.now ≤ leader.now.base }
    ensures checked { Gives result (spans_at at (frame leader.now) bytes.now entries.now) }
{
    if leader.length as usize > bytes.len() {
        return Err(FileFault::Span(at));
    }
    let size = size_of_entry(leader);
    let mut place = DIRECTORY;
    for entry in entries {
        if !ends_inside(leader, entry) {
            return Err(FileFault::Span(at + place));
        }
        place += size;
    }
    Ok(())
}

/// Checks that each field with a tag of the list is ended.
#[tactic(auto, unfolding(crate::specs::Reading::ends_at))]
fn check_ends(
    bytes: &[u8],
    at: usize,
    tags: &[[u8; 4]],
    leader: &Leader,
    entries: &[Entry],
) -> Result<(), FileFault>
    requires low { at ≤ 2 ^ 63 }
    requires few { 25 + entry_size (frame leader.now) * length entries.now ≤ leader.now.base }
    requires whole { leader.now.length ≤ length bytes.now }
    requires inside { AllByRecursion (IsInside (frame leader.now)) entries.now }
    ensures checked { Gives result (ends_at tags.now at (frame leader.now) bytes.now entries.now) }
{
    let size = size_of_entry(leader);
    let mut place = DIRECTORY;
    for entry in entries {
        if !is_ended_in(tags, bytes, leader, entry) {
            return Err(FileFault::Terminator(at + place));
        }
        place += size;
    }
    Ok(())
}

/// Whether a field is ended, where its tag is one of the list. Its end is looked at first, since almost every field is
/// ended.
fn is_ended_in(tags: &[[u8; 4]], bytes: &[u8], leader: &Leader, entry: &Entry) -> bool
    requires whole { leader.now.length ≤ length bytes.now }
    requires inside { IsInside (frame leader.now) entry.now }
    ensures { result ≡ is_ended tags.now (frame leader.now) bytes.now entry.now }
{
    ends_with_terminator(field_in(bytes, leader, entry)) || !is_in_list(tags, &entry.tag)
}

/// Whether the tag is one of the list.
pub(crate) fn is_in_list(tags: &[[u8; 4]], tag: &[u8; 4]) -> bool
    ensures { result ≡ is_listed tags.now tag.now }
{
    tags.iter().any(|listed| is_same(listed, tag))
}

/// Whether the bytes end with a field terminator.
fn ends_with_terminator(bytes: &[u8]) -> bool
    ensures { result ≡ has_end bytes.now }
{
    match bytes {
        [.., last] => *last == FIELD_TERMINATOR,
        [] => false,
    }
}

/// Whether the field ends inside its record.
fn ends_inside(leader: &Leader, entry: &Entry) -> bool
    ensures { result ≡ is_inside (frame leader.now) entry.now }
{
    let end = u64::from(leader.base) + u64::from(entry.position) + u64::from(entry.length);
    end <= u64::from(leader.length)
}

/// The bytes that an entry names in the record that begins the bytes.
pub(crate) fn field_in<'a>(bytes: &'a [u8], leader: &Leader, entry: &Entry) -> &'a [u8]
    requires whole { leader.now.length ≤ length bytes.now }
    requires inside { IsInside (frame leader.now) entry.now }
    ensures named { result.now ≡ field_bytes (frame leader.now) bytes.now entry.now }
    ensures whole { length result.now ≡ entry.now.length }
{
    let from = leader.base as usize + entry.position as usize;
    &bytes[from..from + entry.length as usize]
}
