//! Whether a change fits the cell.
//!
//! Vector records and features are judged by the same few numbers of what is kept, so that the
//! order of the faults is said once.

ghost use Rattle.std.specs.Prelude.{◌≡◌, IsTrue, None, [], if◌then◌else◌};
ghost use Rattle.chart_model.specs.Answers.{first_of, when};
ghost use Rattle.update_apply.specs.Fault as spec;

use crate::fault::ChangeFault;
use chart_model::codes::{DELETE, FEATURE, INSERT, MODIFY};
use chart_model::{Cell, Control, Coord, Feature, Foid, Name, UpdateRecord, Vector};

/// What a cell has under a name, as far as changes are judged by it.
#[derive(Clone, Copy, Debug)]
pub struct HeldRecord {
    pub version: u16,
    /// `None` for a vector record.
    pub foid: Option<Foid>,
    /// How many attributes there are.
    pub attrs: usize,
    /// How many pointers there are.
    pub pointers: usize,
    /// How many coordinates there are.
    pub coords: usize,
    /// Whether the coordinates have depths.
    pub depths: bool,
    /// How many related objects there are.
    pub related: usize,
}

/// Whether coordinates have depths: those of one record are alike.
fn have_depths(coords: &[Coord]) -> bool
    ensures { result ≡ spec.have_depths coords.now }
{
    match coords.first() {
        Some(coord) => coord.z.is_some(),
        None => false,
    }
}

fn held_vector(vector: &Vector) -> HeldRecord
    ensures { result ≡ spec.held_vector vector.now }
{
    let coords = vector.coords.as_slice();
    HeldRecord {
        version: vector.version,
        foid: None,
        attrs: vector.attrs.len(),
        pointers: vector.pointers.as_slice().len(),
        coords: coords.len(),
        depths: have_depths(coords),
        related: 0,
    }
}

fn held_feature(feature: &Feature) -> HeldRecord
    ensures { result ≡ spec.held_feature feature.now }
{
    HeldRecord {
        version: feature.version,
        foid: Some(feature.foid),
        attrs: feature.attrs.len(),
        pointers: feature.pointers.as_slice().len(),
        coords: 0,
        depths: false,
        related: feature.related.as_slice().len(),
    }
}

/// What a cell has under a name.
fn held_under(cell: &Cell, name: Name) -> Option<HeldRecord>
    ensures { result ≡ spec.held_under cell.now name }
{
    if name.rcnm == FEATURE {
        cell.features.get(name).map(held_feature)
    } else {
        cell.vectors.get(name).map(held_vector)
    }
}

/// What a cell has under the name of a change.
pub fn held_for(cell: &Cell, change: &UpdateRecord) -> Option<HeldRecord>
    ensures { result ≡ spec.held_under cell.now change.now.target }
{
    held_under(cell, change.target)
}

/// The first fault of several.
fn first_of(faults: &[Option<ChangeFault>]) -> Option<ChangeFault>
    ensures { result ≡ first_of faults.now }
{
    for fault in faults {
        if fault.is_some() {
            return *fault;
        }
    }
    None
}

/// A fault where it is so.
fn when(so: bool, fault: ChangeFault) -> Option<ChangeFault>
    ensures { result ≡ when so fault }
{
    if so { Some(fault) } else { None }
}

/// An identifier that is given and isn't the one that is kept.
fn foid_fault(name: Name, held: Option<Foid>, given: Option<Foid>) -> Option<ChangeFault>
    ensures { result ≡ spec.foid_fault name held given }
{
    match (held, given) {
        (Some(kept), Some(given)) => when(kept != given, ChangeFault::Foid { name, kept, given }),
        _ => None,
    }
}

/// Items that are given without a control field.
fn control_fault<T>(name: Name, edit: Option<Control>, given: &[T]) -> Option<ChangeFault>
    ensures { result ≡ spec.control_fault name edit given.now }
{
    let so = edit.is_none() && !given.is_empty();
    when(so, ChangeFault::NoControl { name })
}

/// Another number of items than the control field of an insertion or a replacement states.
fn count_fault<T>(name: Name, edit: Option<Control>, given: &[T]) -> Option<ChangeFault>
    ensures { result ≡ spec.count_fault name edit given.now }
{
    let control = edit?;
    let found = given.len();
    let so = control.instruction != DELETE && control.count as usize != found;
    when(
        so,
        ChangeFault::Count {
            name,
            stated: control.count,
            found,
        },
    )
}

/// A place 0, or one that is over the list's length.
fn index_fault(name: Name, edit: Option<Control>, length: usize) -> Option<ChangeFault>
    ensures { result ≡ spec.index_fault name edit length }
{
    let control = edit?;
    let index = control.index;
    let mut behind = index as usize;
    if control.instruction != INSERT {
        behind += control.count as usize;
    }
    let so = index == 0 || behind - 1 > length;
    when(
        so,
        ChangeFault::Index {
            name,
            length,
            index,
        },
    )
}

/// Coordinates with depths put among coordinates without, or the other way round.
fn mixed_fault(
    name: Name,
    edit: Option<Control>,
    held: &HeldRecord,
    given: &[Coord],
) -> Option<ChangeFault>
    ensures { result ≡ spec.mixed_fault name edit held.now given.now }
{
    let control = edit?;
    let coord = given.first()?;
    let so = control.instruction != DELETE && held.coords != 0 && held.depths != coord.z.is_some();
    when(so, ChangeFault::Mixed { name })
}

/// Whether a change edits no list: most set attributes alone.
fn edits_nothing(change: &UpdateRecord) -> bool
    ensures edits { IsTrue result → (change.now.pointer_edit ≡ None) × (change.now.coord_edit ≡ None)
        × (change.now.related_edit ≡ None) }
    ensures items { IsTrue result → (change.now.pointers ≡ []) × (change.now.coords ≡ []) × (change.now.related ≡ []) }
{
    change.pointer_edit.is_none()
        && change.coord_edit.is_none()
        && change.related_edit.is_none()
        && change.pointers.as_slice().is_empty()
        && change.coords.as_slice().is_empty()
        && change.related.as_slice().is_empty()
}

/// The first fault of the three edits of a modification.
fn edits_fault(change: &UpdateRecord, held: &HeldRecord) -> Option<ChangeFault>
    ensures { result ≡ spec.edits_fault change.now held.now }
{
    if change.ruin != MODIFY || edits_nothing(change) {
        return None;
    }
    let name = change.target;
    let pointers = change.pointers.as_slice();
    let coords = change.coords.as_slice();
    let related = change.related.as_slice();
    first_of(&[
        control_fault(name, change.pointer_edit, pointers),
        control_fault(name, change.coord_edit, coords),
        control_fault(name, change.related_edit, related),
        count_fault(name, change.pointer_edit, pointers),
        count_fault(name, change.coord_edit, coords),
        count_fault(name, change.related_edit, related),
        index_fault(name, change.pointer_edit, held.pointers),
        index_fault(name, change.coord_edit, held.coords),
        index_fault(name, change.related_edit, held.related),
        mixed_fault(name, change.coord_edit, held, coords),
    ])
}

/// Whether a version follows the one that is kept, or in a deletion is the same.
fn fits_version(change: &UpdateRecord, held: u16) -> bool
    ensures { result ≡ spec.fits_version change.now held }
{
    change.version as u32 == held as u32 + 1 || change.ruin == DELETE && change.version == held
}

/// The first fault of a change of a record, by what the cell has under its name.
pub fn fault_by(held: Option<HeldRecord>, change: &UpdateRecord) -> Option<ChangeFault>
    ensures { result ≡ spec.fault_by held change.now }
{
    let name = change.target;
    let inserts = change.ruin == INSERT;
    let Some(held) = held else {
        return when(!inserts, ChangeFault::Absent { name });
    };
    let version = ChangeFault::Version {
        name,
        kept: held.version,
        given: change.version,
    };
    first_of(&[
        when(inserts, ChangeFault::Present { name }),
        when(!fits_version(change, held.version), version),
        foid_fault(name, held.foid, change.foid),
        edits_fault(change, &held),
    ])
}
