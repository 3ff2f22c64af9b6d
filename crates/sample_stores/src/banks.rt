//! The bytes of a bank in pieces, worked out by hand.
//!
//! A piece is what stands around a file, whose bytes are in `files`. So the bank of some commands is a list of pieces,
//! and a place in it is a sum of their lengths.

/// The layout, and the length of a checkpoint without bytes.
pub const HEAD: &[u8] = b"\0\0\0\0\0\0\0\0";

/// A closed gate.
pub const CLOSED: &[u8] = b"\0";

/// What stands before a base file of 500 + 74 + 193 bytes: an open gate, the length 768, and the first byte of a load.
/// The record has 773 bytes.
pub const LOADS: &[u8] = b"\x01\0\0\x03\0\x01";

/// The same before an update of 500 + 63 + 76 bytes: the length is 640, and the record has 645 bytes.
pub const EXTENDS: &[u8] = b"\x01\0\0\x02\x80\x01";

/// The record of a drop, of 14 bytes.
pub const DROPS: &[u8] = b"\x01\0\0\0\x09\x03AA5TEST1";

/// The layout and the length of a checkpoint of no cell, and that checkpoint: a count of 0 in eight bytes.
pub const NO_CELL: &[u8] = b"\0\0\0\0\0\0\0\x08\0\0\0\0\0\0\0\0";

/// The layout, and the length of a checkpoint of 50 bytes.
pub const FIFTY: &[u8] = b"\0\0\0\0\0\0\0\x32";

/// A checkpoint of 50 bytes in pieces: a count of 1 cell and its key, of 24 bytes; edition 1 and update 0, of 8; a flag
/// that it is cancelled; and a count of 1 file with that file, of 17 bytes: the one byte 0. So it has no chart, and no
/// commands left it.
pub const ONE_CELL: &[u8] = b"\0\0\0\0\0\0\0\x01\0\0\0\0\0\0\0\x08AA5TEST1";

/// The numbers of the cell.
pub const NUMBERS: &[u8] = b"\0\0\0\x01\0\0\0\0";

/// The flag of a cell that is cancelled.
pub const CANCELLED: &[u8] = b"\x01";

/// The file of the cell.
pub const ONE_FILE: &[u8] = b"\0\0\0\0\0\0\0\x01\0\0\0\0\0\0\0\x01\0";

/// The record of a rollback to update 0, of 18 bytes.
pub const ROLLS: &[u8] = b"\x01\0\0\0\x0d\x02\0\0\0\0AA5TEST1";
