//! The content of a bank, from its bytes.
//!
//! The bytes are walked record by record: a length may be wrong, and what stands behind a closed
//! gate does not count.

ghost use Rattle.std.specs.Prelude.{◌≡◌, ◌+◌, ◌<◌, ◌≤◌, Ok, Err, IfOk, IfErr, IfSome, IfNone, length, drop, map};
ghost use Rattle.std.specs.List.{All, sum_by};
ghost use Rattle.byteorder.specs.Endian.{big_number};
ghost use Rattle.bank_journal.specs.declared.reading.WalkFault.TheVariants.{NoMemory};
ghost use Rattle.bank_journal.specs.Bank.{HasHeader, checkpoint_length, gate_of};
ghost use Rattle.bank_journal.specs.Parts.{IsWithin, part_of};
ghost use Rattle.bank_journal.specs.Reading.{bodies_in, content_of, bank_of};
ghost use Rattle.bank_journal.specs.WalkFault.{FaultHas};

use crate::content::{BankContent, Span};
use byteorder::{BigEndian, ByteOrder};
use std::alloc::{AllocFailed, Global};

/// The bytes before the checkpoint: the layout, and the checkpoint's length.
pub(crate) const HEADER: usize = 8;

/// The bytes of a record beside its body: its gate, and the body's length.
const OVERHEAD: usize = 5;

/// Why bytes give no content.
#[derive(Clone, Copy)]
pub(crate) enum WalkFault {
    /// They have no reading: their first fault is at this place.
    Foreign(usize),
    NoMemory,
}

impl<T: Drop> From<AllocFailed<T>> for WalkFault {
    ghost from_gives = { λ _ e. e ≡ NoMemory };

    fn from(_: AllocFailed<T>) -> WalkFault {
        WalkFault::NoMemory
    }
}

/// The length of a body, which begins the bytes in four of them, where a gate can stand behind the body.
fn body_length(bytes: &[u8]) -> Option<usize>
    ensures counted { IfSome result (λ size. size ≡ big_number 4 bytes.now) }
    ensures fits { IfSome result (λ size. 4 + size < length bytes.now) }
    ensures none { IfNone result (length bytes.now ≤ 4 + big_number 4 bytes.now) }
{
    if bytes.len() <= 4 {
        return None;
    }
    let size = BigEndian::read_u32(bytes) as usize;
    let rest = bytes.len() - 4;
    if size < rest { Some(size) } else { None }
}

/// Where the bodies of the records from a gate on lie, and the place of the closed gate that ends them.
fn find_bodies(alloc: Global, bytes: &[u8], first: usize) -> Result<(Vec<Span>, usize), WalkFault>
    requires { first < length bytes.now }
    ensures bodies { IfOk result (λ found.
        bodies_in 0 (drop first bytes.now) ≡ Ok (map (part_of bytes.now) found.0.items)) }
    ensures within { IfOk result (λ found. All (IsWithin (length bytes.now)) found.0.items) }
    ensures gate { IfOk result (λ found.
        found.1 ≡ first + sum_by (λ body. 5 + length body) (map (part_of bytes.now) found.0.items)) }
    ensures inside { IfOk result (λ found. found.1 < length bytes.now) }
    ensures fault { IfErr result (FaultHas (λ place.
        content_of bytes.now (bodies_in 0 (drop first bytes.now)) ≡ Err place)) }
{
    let mut bodies = Vec::new(alloc);
    let mut at = first;
    while bytes[at] % 2 == 1 {
        let Some(size) = body_length(&bytes[at + 1..]) else {
            return Err(WalkFault::Foreign(at));
        };
        let from = at + OVERHEAD;
        let to = from + size;
        bodies.push(Span { from, to })?;
        at = to;
    }
    Ok((bodies, at))
}

/// The place behind the checkpoint, where there is a header.
fn first_gate(bytes: &[u8]) -> Option<usize>
    requires { 9 < length bytes.now }
    ensures some { IfSome result (λ gate. HasHeader bytes.now) }
    ensures place { IfSome result (λ gate. gate ≡ 8 + checkpoint_length bytes.now) }
    ensures none { IfNone result (¬ HasHeader bytes.now) }
{
    let length = BigEndian::read_uint(&bytes[1..], 7);
    if bytes[0] == 0 && length < (bytes.len() - HEADER) as u64 {
        Some(HEADER + length as usize)
    } else {
        None
    }
}

/// The content of a bank of more than nine bytes, and the place of its closed gate. The bytes are taken over, and no
/// part of them is copied.
///
/// # Errors
///
/// `Foreign` exactly where the bytes have no reading, with the place of their first fault; `NoMemory`.
pub(crate) fn read_bank(alloc: Global, bytes: Vec<u8>) -> Result<(BankContent, usize), WalkFault>
    requires { 9 < length bytes.items }
    ensures content { IfOk result (λ found. bank_of bytes.items ≡ Ok found.0) }
    ensures gate { IfOk result (λ found. found.1 ≡ gate_of found.0) }
    ensures inside { IfOk result (λ found. found.1 < length bytes.items) }
    ensures fault { IfErr result (FaultHas (λ place. bank_of bytes.items ≡ Err place)) }
{
    let Some(first) = first_gate(&bytes) else {
        return Err(WalkFault::Foreign(0));
    };
    let (bodies, gate) = find_bodies(alloc, &bytes, first)?;
    let checkpoint = Span {
        from: HEADER,
        to: first,
    };
    Ok((BankContent::of_spans(bytes, checkpoint, bodies), gate))
}
