//! Records inserted and modified.
//!
//! An insertion takes over the lists of its change. A modification takes all memory first, so that
//! no record is left half modified.

ghost use Rattle.std.specs.Prelude.{◌≡◌, IfOk, OnOk, OnErr};
ghost use Rattle.std.specs.FinMap as map;
ghost use Rattle.chart_model.specs.Attrs.{set_attrs};
ghost use Rattle.update_apply.specs.Changed.{inserted_vector, inserted_feature};
ghost use Rattle.update_apply.specs.Edited.{FitsEach, list_after};

use crate::edit::{edit, items_added};
use chart_model::{
    AttrList, AttrMap, Control, Edit, Feature, Foid, Pointer, Sequence, UpdateRecord, Vector,
};
use std::alloc::{AllocError, Global};
use std::mem;

/// An equal change.
pub fn copy_of(change: &UpdateRecord) -> Result<UpdateRecord, AllocError>
    ensures { IfOk result (λ copy. copy ≡ change.now) }
{
    Ok(UpdateRecord {
        target: change.target,
        ruin: change.ruin,
        version: change.version,
        prim: change.prim,
        grup: change.grup,
        class: change.class,
        foid: change.foid,
        attrs: change.attrs.clone()?,
        pointer_edit: change.pointer_edit,
        pointers: change.pointers.clone()?,
        coord_edit: change.coord_edit,
        coords: change.coords.clone()?,
        related_edit: change.related_edit,
        related: change.related.clone()?,
    })
}

/// The attributes that settings leave where there were none.
fn attrs_of(alloc: Global, settings: AttrList) -> Result<AttrMap, AllocError>
    ensures { IfOk result (λ attrs. attrs ≡ set_attrs map.empty settings) }
{
    AttrMap::from_settings(alloc, settings.into_vec())
}

/// The vector record that an insertion puts. It takes over the lists of the change.
pub fn inserted_vector(alloc: Global, change: UpdateRecord) -> Result<Vector, AllocError>
    ensures { IfOk result (λ vector. vector ≡ inserted_vector change) }
{
    Ok(Vector {
        version: change.version,
        attrs: attrs_of(alloc, change.attrs)?,
        pointers: change.pointers,
        coords: change.coords,
    })
}

/// The feature record that an insertion puts. It takes over the lists of the change.
pub fn inserted_feature(alloc: Global, change: UpdateRecord) -> Result<Feature, AllocError>
    ensures { IfOk result (λ feature. feature ≡ inserted_feature change) }
{
    Ok(Feature {
        prim: change.prim,
        grup: change.grup,
        class: change.class,
        version: change.version,
        foid: change.foid.unwrap_or(Foid {
            agen: 0,
            fidn: 0,
            fids: 0,
        }),
        attrs: attrs_of(alloc, change.attrs)?,
        related: change.related,
        pointers: change.pointers,
    })
}

/// Sets attributes and edits the pointers and one other list of a record, or where there is no memory does
/// nothing: all memory is taken before anything is written.
fn edit_parts<T: Copy>(
    alloc: Global,
    change: &UpdateRecord,
    attrs: &mut AttrMap,
    pointers: &mut Vec<Pointer>,
    others: &mut Vec<T>,
    control: Option<Control>,
    given: &[T],
) -> Result<(), AllocError>
    requires pointers { FitsEach change.now.pointer_edit change.now.pointers pointers.old.items }
    requires others { FitsEach control given.now others.old.items }
    ensures attrs { OnOk result (attrs.new ≡ set_attrs attrs.old change.now.attrs) }
    ensures pointers { OnOk result (pointers.new.items
        ≡ list_after change.now.pointer_edit change.now.pointers pointers.old.items) }
    ensures others { OnOk result (others.new.items ≡ list_after control given.now others.old.items) }
    ensures err { OnErr result ((attrs.new ≡ attrs.old) × (pointers.new.items ≡ pointers.old.items) ×
        (others.new.items ≡ others.old.items)) }
{
    let given_pointers = change.pointers.as_slice();
    pointers.reserve(items_added(change.pointer_edit, given_pointers))?;
    others.reserve(items_added(control, given))?;
    attrs.set_all(alloc, change.attrs.as_slice())?;
    edit(pointers, change.pointer_edit, given_pointers);
    edit(others, control, given);
    Ok(())
}

/// What an update record makes of the record that it modifies.
#[derive(Clone, Copy)]
pub struct Modification<'a> {
    pub alloc: Global,
    pub change: &'a UpdateRecord,
}

impl Edit<Vector> for Modification<'_> {
    ghost use Rattle.update_apply.specs.Changed.{FitsVector, modified_vector};

    ghost fits = { λ by vector. FitsVector by.change.now vector };

    ghost edited = { λ by vector. modified_vector by.change.now vector };

    fn edit(self, vector: &mut Vector) -> Result<(), AllocError> {
        let Modification { alloc, change } = self;
        let mut pointers = mem::replace(&mut vector.pointers, Sequence::new(alloc)).into_vec();
        let mut coords = mem::replace(&mut vector.coords, Sequence::new(alloc)).into_vec();
        let done = edit_parts(
            alloc,
            change,
            &mut vector.attrs,
            &mut pointers,
            &mut coords,
            change.coord_edit,
            change.coords.as_slice(),
        );
        vector.pointers = Sequence::from_vec(pointers);
        vector.coords = Sequence::from_vec(coords);
        done?;
        vector.version = change.version;
        Ok(())
    }
}

impl Edit<Feature> for Modification<'_> {
    ghost use Rattle.update_apply.specs.Changed.{FitsFeature, modified_feature};

    ghost fits = { λ by feature. FitsFeature by.change.now feature };

    ghost edited = { λ by feature. modified_feature by.change.now feature };

    fn edit(self, feature: &mut Feature) -> Result<(), AllocError> {
        let Modification { alloc, change } = self;
        let mut pointers = mem::replace(&mut feature.pointers, Sequence::new(alloc)).into_vec();
        let mut related = mem::replace(&mut feature.related, Sequence::new(alloc)).into_vec();
        let done = edit_parts(
            alloc,
            change,
            &mut feature.attrs,
            &mut pointers,
            &mut related,
            change.related_edit,
            change.related.as_slice(),
        );
        feature.pointers = Sequence::from_vec(pointers);
        feature.related = Sequence::from_vec(related);
        done?;
        feature.version = change.version;
        Ok(())
    }
}
