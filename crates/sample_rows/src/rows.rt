//! Changes of records, by a few numbers and texts.
//!
//! A row is a constant, so that tables of them are static, and each says only where it differs from `BARE`. The macros
//! leave out what most rows have alike.

use chart_model::{Foid, Name};

/// An item of a list: the kind of a pointer's target, its number, and the topology of a vector record's pointer or the
/// orientation of a feature's; the longitude and the latitude of a coordinate; the number of a related object, in the
/// second place.
pub type Item = (u8, u16, u8);

/// The code of an attribute, and the text that it is set to.
pub type Setting = (u16, &'static [u8]);

/// The usage (USAG) and the masking (MASK) of a feature's pointer.
pub type Mark = (u8, u8);

/// What a control field says: the instruction, the place, and how many items.
pub type Edit = (u8, u16, u16);

/// A change of a record.
#[derive(Clone, Copy)]
pub struct Row {
    pub name: Name,
    pub ruin: u8,
    pub version: u16,
    /// Of a feature.
    pub prim: u8,
    /// Of a feature.
    pub grup: u8,
    /// Of a feature.
    pub class: u16,
    /// Of a feature.
    pub foid: Option<Foid>,
    pub attrs: &'static [Setting],
    pub pointer_edit: Option<Edit>,
    pub pointers: &'static [Item],
    /// Of the first of a feature's pointers. The others have none.
    pub marks: &'static [Mark],
    /// Of the coordinates of a vector record, or the related objects of a feature.
    pub other_edit: Option<Edit>,
    pub others: &'static [Item],
    /// Whether the coordinates are soundings.
    pub deep: bool,
    /// The depths of the first of the soundings, in decimetres. The others are five metres deep.
    pub depths: &'static [i16],
}

/// The identifier of features whose rows name no other.
pub const FOID: Foid = Foid {
    agen: 1,
    fidn: 1,
    fids: 1,
};

/// An insertion of a record without content.
pub const BARE: Row = Row {
    name: Name { rcnm: 130, rcid: 1 },
    ruin: 1,
    version: 1,
    prim: 255,
    grup: 2,
    class: 42,
    foid: Some(FOID),
    attrs: &[],
    pointer_edit: None,
    pointers: &[],
    marks: &[],
    other_edit: None,
    others: &[],
    deep: false,
    depths: &[],
};

/// The name of a record: its kind and its number.
#[macro_export]
macro_rules! name {
    ($rcnm:expr, $rcid:expr $(,)?) => {
        $crate::Name {
            rcnm: $rcnm,
            rcid: $rcid,
        }
    };
}

/// An insertion of a vector record: its kind, its number, its pointers and its coordinates.
#[macro_export]
macro_rules! vector {
    ($rcnm:expr, $rcid:expr, $pointers:expr, $coords:expr $(,)?) => {
        $crate::Row {
            name: $crate::name!($rcnm, $rcid),
            pointers: &$pointers,
            others: &$coords,
            ..$crate::BARE
        }
    };
}

/// An insertion of a feature: its primitive, its number and its pointers.
#[macro_export]
macro_rules! feature {
    ($prim:expr, $rcid:expr, $pointers:expr $(,)?) => {
        $crate::Row {
            name: $crate::name!(100, $rcid),
            prim: $prim,
            pointers: &$pointers,
            ..$crate::BARE
        }
    };
}
