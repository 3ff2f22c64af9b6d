//! The parts of vector and feature records (S-57 Part 3).
//!
//! ORNT, USAG, TOPI and MASK stay the numbers that a file has, the null value 255 among them, so that a chart which is
//! written again says the same. A depth is in centimetres, ten times the VE3D of a file.

ghost use Rattle.std.specs.Prelude.{◌≡◌};

use crate::name::{Foid, Name};
use crate::octets::Octets;
use crate::sequence::Sequence;
use std::alloc::AllocError;

/// An attribute: its code and its text, as bytes without 0x1E and 0x1F. An empty text means that the
/// value is unknown.
#[derive(Debug, PartialEq, Drop)]
pub struct Attr {
    pub code: u16,
    pub value: Octets,
}

impl Clone for Attr {
    ghost is_clone = { λ attr copy. copy ≡ attr };

    fn clone(&self) -> Result<Attr, AllocError> {
        Ok(Attr {
            code: self.code,
            value: self.value.clone()?,
        })
    }
}

/// Attributes in the order in which they are set.
pub type AttrList = Sequence<Attr>;

/// A pointer to a vector record (S-57 Part 3, VRPT and FSPT).
#[derive(Clone, Copy, Debug, PartialEq, Eq)]
pub struct Pointer {
    pub target: Name,
    /// Orientation: 1 forward, 2 reverse, 255 null.
    pub ornt: u8,
    /// Usage: 1 exterior, 2 interior, 3 exterior cut by the data limit, 255 null.
    pub usag: u8,
    /// Topology: 1 begin node, 2 end node. A feature's pointers have 255.
    pub topi: u8,
    /// Masking: 1 mask, 2 show, 255 null.
    pub mask: u8,
}

/// Pointers in order.
pub type Pointers = Sequence<Pointer>;

/// A coordinate (S-57 Part 3, SG2D and SG3D): longitude `x` and latitude `y` in degrees times
/// 10,000,000, and for a sounding the depth `z` in centimetres.
#[derive(Clone, Copy, Debug, PartialEq, Eq)]
pub struct Coord {
    pub x: i32,
    pub y: i32,
    pub z: Option<i32>,
}

/// Coordinates in order.
pub type Coords = Sequence<Coord>;

/// A related feature object (S-57 Part 3, FFPT): its identifier, and the relationship: 1 master, 2 slave,
/// 3 peer.
#[derive(Clone, Copy, Debug, PartialEq, Eq)]
pub struct Related {
    pub foid: Foid,
    pub rind: u8,
}

/// Related objects in order.
pub type RelatedList = Sequence<Related>;
