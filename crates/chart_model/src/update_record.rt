//! A change of one record.
//!
//! The records of a base file are insertions, and those of an update any changes, so one type says
//! both.

use crate::name::{Foid, Name};
use crate::record::{AttrList, Coords, Pointers, RelatedList};
use std::marker::Model;

/// How a list of a record is edited (S-57 Part 3, VRPC, SGCC, FFPC and FSPC).
#[derive(Clone, Copy, Debug, PartialEq, Eq)]
pub struct Control {
    /// 1 insert, 2 delete, 3 modify.
    pub instruction: u8,
    /// The place of the first item concerned, from 1.
    pub index: u16,
    /// How many items are concerned.
    pub count: u16,
}

/// A change of one record: an insertion, a deletion or a modification.
///
/// A vector record's change has no content of a feature: `prim`, `grup` and `class` are 0, `foid` is
/// `None`, and it has no related objects. A feature's change has no coordinates.
#[derive(Debug, Drop)]
pub struct UpdateRecord {
    /// The record that is changed.
    pub target: Name,
    /// The update instruction: 1 insert, 2 delete, 3 modify.
    pub ruin: u8,
    /// The record's version.
    pub version: u16,
    /// The geometric primitive: 1 point, 2 line, 3 area, 255 none.
    pub prim: u8,
    /// The group: 1 where the object is part of the skin of the earth.
    pub grup: u8,
    /// The code of the object class.
    pub class: u16,
    pub foid: Option<Foid>,
    pub attrs: AttrList,
    pub pointer_edit: Option<Control>,
    pub pointers: Pointers,
    pub coord_edit: Option<Control>,
    pub coords: Coords,
    pub related_edit: Option<Control>,
    pub related: RelatedList,
}

impl Model for UpdateRecord {
    ghost use Rattle.chart_model.specs.Change.{Change, IsChange};

    ghost Value = { Change };

    ghost use Rattle.chart_model.specs.ChangeView.{change_of};

    ghost view = { change_of };

    ghost invariant = { λ fields. IsChange (change_of fields) };
}
