//! Leaders and entries as they stand in the bytes of a file.
//!
//! Only what a record's frame hangs on is looked at; the other bytes of a leader, such as the interchange level, may be
//! anything. A tag has four bytes here, as all of S-57 have, though ISO/IEC 8211 lets a file say how many.

ghost use Rattle.std.specs.Prelude.{◌≡◌, ◌↔◌, true, ◌-◌, ◌+◌, ◌≤◌, ◌<◌, length, slice_index, IfOk, IfErr, IfSome};
ghost use Rattle.std.specs.Prelude.{IfNone, IsTrue, take, drop, MatchOption, codes};
ghost use Rattle.std.specs.Option.{SomeIff};
ghost use Rattle.std.specs.List.{slice_range};
ghost use Rattle.iso8211_leader.specs.Leader.{leader_text, HasLeader, frame_of, frame, identifier};
ghost use Rattle.iso8211_leader.specs.Entry.{entry_text, entry_size, HasEntry, IsEntry, entry_of};

use crate::digits::{number_in, size_in};
use crate::entry::Entry;
use crate::fault::FrameFault;
use crate::leader::Leader;

/// The bytes of a leader.
const LEADER_LENGTH: usize = 24;

/// The least base address: a leader and the directory's closing byte stand before it.
const LEAST_BASE: u32 = 25;

/// Reads the leader of the record at the place `at` of a file's bytes: of its data descriptive record
/// where `first`, and else of a data record. It takes no memory.
///
/// It looks at the record length (bytes 0 to 4), the leader identifier (6: `L` or `D`), the field control length (10
/// and 11: `09`, of a data descriptive record alone), the base address (12 to 16) and the entry map (20, 21, and 23:
/// `4`), and at no other byte.
///
/// # Errors
///
/// `Leader(at)` exactly where no such leader stands there.
pub fn read_leader(bytes: &[u8], at: usize, first: bool) -> Result<Leader, FrameFault>
    ensures leader { IfOk result (λ leader. HasLeader first (leader_text bytes.now at)) }
    ensures numbers { IfOk result (λ leader. frame leader ≡ frame_of (leader_text bytes.now at)) }
    ensures refused { IfErr result (λ fault. ¬ HasLeader first (leader_text bytes.now at)) }
    ensures fault { IfErr result (λ fault. fault ≡ FrameFault.Leader at) }
{
    let Some(text) = text_at(bytes, at, LEADER_LENGTH) else {
        return Err(FrameFault::Leader(at));
    };
    match leader_in(text, first) {
        Some(leader) => Ok(leader),
        None => Err(FrameFault::Leader(at)),
    }
}

/// So many bytes from a place on, where the file has them.
fn text_at(bytes: &[u8], at: usize, size: usize) -> Option<&[u8]>
    requires { 0 < size }
    ensures text { IfSome result (λ text. text.now ≡ take size (drop at bytes.now)) }
    ensures whole { IfSome result (λ text. length text.now ≡ size) }
    ensures short { IfNone result (length (take size (drop at bytes.now)) < size) }
{
    if at > bytes.len() {
        return None;
    }
    let (_, rest) = bytes.split_at(at);
    if rest.len() < size {
        return None;
    }
    let (text, _) = rest.split_at(size);
    Some(text)
}

/// The leader that 24 bytes are.
fn leader_in(text: &[u8], first: bool) -> Option<Leader>
    requires { length text.now ≡ 24 }
    ensures { MatchOption result (¬ HasLeader first text.now)
        (λ leader. HasLeader first text.now × (frame leader ≡ frame_of text.now)) }
{
    if !is_kind(text, first) {
        return None;
    }
    let length = number_in(&text[0..5])?;
    let base = number_in(&text[12..17])?;
    let size_length = size_in(text[20])?;
    let size_position = size_in(text[21])?;
    if base < LEAST_BASE || length < base {
        return None;
    }
    Some(Leader {
        length,
        base,
        size_length,
        size_position,
    })
}

/// Whether the leader identifier, the field control length of a data descriptive record, and the size of a tag are
/// those of the kind.
fn is_kind(text: &[u8], first: bool) -> bool
    requires { length text.now ≡ 24 }
    ensures { IsTrue result ↔ ((slice_index text.now 6 ≡ identifier first)
        × (first ≡ true → slice_range text.now 10 12 ≡ codes "09") × (slice_index text.now 23 ≡ 52)) }
{
    if text[23] != b'4' {
        return false;
    }
    if first {
        text[6] == b'L' && text[10] == b'0' && text[11] == b'9'
    } else {
        text[6] == b'D'
    }
}

/// Reads the entry at the place `place` of a file's bytes, in the directory of the record at `at`. It
/// takes no memory.
///
/// # Errors
///
/// `Directory(place)` exactly where no entry stands there that ends before the directory's closing
/// byte, the one before the base address.
pub fn read_entry(
    bytes: &[u8],
    at: usize,
    leader: &Leader,
    place: usize,
) -> Result<Entry, FrameFault>
    ensures entry { IfOk result (λ entry. HasEntry (frame leader.now) bytes.now at place) }
    ensures numbers { IfOk result (λ entry.
        entry ≡ entry_of (frame leader.now) (entry_text (frame leader.now) bytes.now place)) }
    ensures refused { IfErr result (λ fault. ¬ HasEntry (frame leader.now) bytes.now at place) }
    ensures fault { IfErr result (λ fault. fault ≡ FrameFault.Directory place) }
{
    let size = 4 + leader.size_length as usize + leader.size_position as usize;
    let Some(text) = text_at(bytes, place, size) else {
        return Err(FrameFault::Directory(place));
    };
    if !ends_before(place + size, at, leader) {
        return Err(FrameFault::Directory(place));
    }
    match entry_in(text, leader) {
        Some(entry) => Ok(entry),
        None => Err(FrameFault::Directory(place)),
    }
}

/// Whether the place `end` is at most that of the closing byte of the directory of the record at `at`.
fn ends_before(end: usize, at: usize, leader: &Leader) -> bool
    ensures { IsTrue result ↔ (end ≤ at + leader.now.base - 1) }
{
    end <= at || end - at < leader.base as usize
}

/// The entry that so many bytes are.
fn entry_in(text: &[u8], leader: &Leader) -> Option<Entry>
    requires { length text.now ≡ entry_size (frame leader.now) }
    ensures { SomeIff result (IsEntry (frame leader.now) text.now) (entry_of (frame leader.now) text.now) }
{
    let position_from = 4 + leader.size_length as usize;
    let length = number_in(&text[4..position_from])?;
    let position_to = position_from + leader.size_position as usize;
    let position = number_in(&text[position_from..position_to])?;
    Some(Entry {
        tag: [text[0], text[1], text[2], text[3]],
        length,
        position,
    })
}
