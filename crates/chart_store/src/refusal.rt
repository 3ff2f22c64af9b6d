//! Why a store refuses a command.
//!
//! A refusal follows from the command, from what is held and from the room in the bank. Want of memory and a fault of
//! the desk follow from none of these, so they are no refusals, and a script is never told one for them.

use chart_model::{Foid, Key, Name};
use thiserror::Error;

/// Why a store refuses a command: one variant for each row of the table of refusals, in the order of their codes, with
/// the values that it names. Want of memory is none of them.
///
/// An offset is a place in the file, counted from 0. Data records are counted from 1.
#[derive(Debug, Drop, Error)]
pub enum Refusal {
    /// 10: no leader of the kind that is read begins at this offset.
    #[error("no leader of a record begins at byte {0}")]
    Leader(usize),
    /// 11: no entry of the directory, or no closing byte of it, stands at this offset.
    #[error("no entry of a directory, or no end of it, stands at byte {0}")]
    Directory(usize),
    /// 12: the record at this offset passes the file's end, or the field of the entry at it its record's end.
    #[error("what begins at byte {0} passes the end of its record or of the file")]
    Span(usize),
    /// 13: the field of the entry at this offset is empty or doesn't end with a field terminator.
    #[error("the field of the entry at byte {0} is empty or has no terminator")]
    Terminator(usize),
    /// 14: the field with this tag has no descriptor.
    #[error("field {} has no descriptor", .0.escape_ascii())]
    Descriptor([u8; 4]),
    /// 15: a field with this tag of this data record spells no values by its descriptor.
    #[error("data record {record}: field {} is not as its descriptor has it", .tag.escape_ascii())]
    Subfield {
        record: usize,
        tag: [u8; 4],
    },
    /// 20: there is no data record, or the first has no general information.
    #[error("the file has no general information")]
    NoGeneral,
    /// 21: a label that is looked at is missing in the field's descriptor, or a feature has no identifier.
    #[error("data record {record}: field {} lacks a subfield", .tag.escape_ascii())]
    MissingField {
        record: usize,
        tag: [u8; 4],
    },
    /// 22: a value has the wrong kind, or is out of its width, its range or its list of values.
    #[error("data record {record}: {} has no value that it may have", .label.escape_ascii())]
    Value {
        record: usize,
        label: [u8; 4],
    },
    /// 23: a rule of the product specification is broken.
    #[error("{} breaks a rule of the product specification", .0.escape_ascii())]
    Profile([u8; 4]),
    /// 30: an update of a cell that isn't held.
    #[error("cell {} is not held, and an update needs it", .0.as_slice().escape_ascii())]
    NoBase(Key),
    /// 31: a base file before the held edition and update.
    #[error("edition {edition}, update {update} comes before edition {held_edition}, update {held_update}, which is held")]
    StaleBase {
        held_edition: u32,
        held_update: u32,
        edition: u32,
        update: u32,
    },
    /// 32: an update of another edition than the held one.
    #[error("the update is one of edition {given}, and edition {held} is held")]
    Edition {
        held: u32,
        given: u32,
    },
    /// 33: an update whose number isn't the held one plus 1.
    #[error("update {given} does not follow: update {wanted} is next")]
    Gap {
        wanted: u64,
        given: u32,
    },
    /// 34: an update of a cell that is cancelled.
    #[error("cell {} is cancelled", .0.as_slice().escape_ascii())]
    Cancelled(Key),
    /// 40: the name of an insertion is there.
    #[error("record {}/{} is there already", .name.rcnm, .name.rcid)]
    Present {
        name: Name,
    },
    /// 41: the name of a modification or a deletion isn't there.
    #[error("record {}/{} is not there", .name.rcnm, .name.rcid)]
    Absent {
        name: Name,
    },
    /// 42: a version doesn't follow the one that is kept.
    #[error("record {}/{} has version {kept}, which version {given} does not follow", .name.rcnm, .name.rcid)]
    Version {
        name: Name,
        kept: u16,
        given: u16,
    },
    /// 43: the identifier of a feature object is another.
    #[error("feature {}/{} is object {} {} {}, and not {} {} {}", .name.rcnm, .name.rcid, .kept.agen, .kept.fidn, .kept.fids, .given.agen, .given.fidn, .given.fids)]
    Foid {
        name: Name,
        kept: Foid,
        given: Foid,
    },
    /// 44: the places of a control field are not in the list.
    #[error("record {}/{}: place {index} is past a list of {length}", .name.rcnm, .name.rcid)]
    Index {
        name: Name,
        length: usize,
        index: u16,
    },
    /// 45: a control field states another number of items than are given.
    #[error("record {}/{}: {found} items are given, and {stated} are stated", .name.rcnm, .name.rcid)]
    Count {
        name: Name,
        stated: u16,
        found: usize,
    },
    /// 46: items of a list are given without its control field.
    #[error("record {}/{}: items are given without their control field", .name.rcnm, .name.rcid)]
    NoControl {
        name: Name,
    },
    /// 47: soundings are put among points without a depth, or such points among soundings.
    #[error("record {}/{}: soundings and points without a depth are mixed", .name.rcnm, .name.rcid)]
    Mixed {
        name: Name,
    },
    /// 50: the record of the first name points to the second, of which the cell has no record.
    #[error("record {}/{} points to record {}/{}, which is not there", .name.rcnm, .name.rcid, .target.rcnm, .target.rcid)]
    Dangling {
        name: Name,
        target: Name,
    },
    /// 51: an edge hasn't its two nodes, or one of them has no coordinate.
    #[error("edge {}/{} has not its two nodes", .0.rcnm, .0.rcid)]
    EdgeNodes(Name),
    /// 52: an area has no shape.
    #[error("the boundary of area {}/{} does not close", .0.rcnm, .0.rcid)]
    RingOpen(Name),
    /// 53: a pointer to a wrong kind of record.
    #[error("record {}/{} points to a record of a wrong kind", .0.rcnm, .0.rcid)]
    WrongPointer(Name),
    /// 60: the file has more than this number of bytes.
    #[error("the file has more than {0} bytes")]
    FileLong(u64),
    /// 61: so many cells are held, and this is another.
    #[error("{0} cells are held, and no other can be")]
    CellsFull(usize),
    /// 62: the live files would have so many bytes.
    #[error("the live files would have {0} bytes, which are too many")]
    StoreFull(u64),
    /// 63: a bank has so many bytes in use, and the command needs so many more.
    #[error("a bank of {length} bytes has no room for {need} more")]
    BankFull {
        length: u64,
        need: u64,
    },
    /// 73: no cell is held under this key.
    #[error("cell {} is not held", .0.as_slice().escape_ascii())]
    NoCell(Key),
    /// 74: no file that doesn't cancel the cell has this update number.
    #[error("cell {} has no update {update} to go back to", .key.as_slice().escape_ascii())]
    NoUpdate {
        key: Key,
        update: u32,
    },
}
