//! Updates of the cells that are made for trials.
//!
//! Each modifies a thirtieth of the areas, so that thirty of them touch every area once, and what is in force after any
//! of them can be told by hand.

ghost use Rattle.std.specs.Prelude.{◌≡◌, ◌++◌, ◌∷◌, [], ◌≤◌, filter, length, map, IfOk, OnOk};
ghost use Rattle.std.specs.Int.{IsInRange};
ghost use Rattle.chart_model.specs.Codes.{MODIFY as MODIFIES};
ghost use Rattle.cell_bytes.specs.Record.{only_fields, of_data, record_of};
ghost use Rattle.cell_bytes.specs.DataSet.{revision_fields};
ghost use Rattle.cell_bytes.specs.Generator.{modification, modified_areas, modified_fields, made_update, made_version};
ghost use Rattle.cell_bytes.specs.Generator.{area_name, is_modified};
ghost use Rattle.cell_bytes.specs.Vector.{name_text};
ghost use Rattle.cell_bytes.specs.Feature.{object_description};
ghost use Rattle.cell_bytes.specs.Subfields.{b11};
ghost use Rattle.cell_bytes.specs.Written.{next_number, number_behind, records_from};

use crate::descriptive::put_descriptive_record;
use crate::draft::RecordDraft;
use crate::file::CellFile;
use crate::generator::{DEPARE, DRVAL1, decimal, made_header};
use crate::lists::{put_attribute, put_name};
use crate::records::draft_revision;
use crate::subfields::{put_b11, put_b12};
use chart_model::codes::{AREA, FEATURE, MODIFY};
use chart_model::{Header, Name, Octets};
use std::alloc::{AllocError, Global};

/// An update modifies one area in so many: those whose numbers are equal to its own modulo this.
const AREA_STRIDE: u32 = 30;

/// Adds the identifier of the record that modifies an area.
#[tactic(auto, unfolding(crate::specs::Feature::object_description))]
fn put_identifier(out: &mut Octets, update: u32, area: u32) -> Result<(), AllocError>
    requires { IsInRange 1 999 update }
    ensures { OnOk result (out.new
        ≡ out.old
        ++ (name_text (area_name area) ++ object_description AREA 1 42 (made_version update) ++ b11 MODIFIES)) }
{
    let name = Name {
        rcnm: FEATURE,
        rcid: area,
    };
    put_name(out, name)?;
    put_b11(out, AREA)?;
    put_b11(out, 1)?;
    put_b12(out, DEPARE)?;
    put_b12(out, (2 + (update - 1) / AREA_STRIDE) as u16)?;
    put_b11(out, MODIFY)
}

/// Makes the record that modifies an area.
#[tactic(auto, unfolding(crate::specs::Generator::modified_fields))]
fn draft_area(
    alloc: Global,
    draft: &mut RecordDraft,
    number: u16,
    update: u32,
    area: u32,
) -> Result<(), AllocError>
    requires { IsInRange 1 999 update }
    ensures { OnOk result (draft.new.fields ≡ only_fields (modified_fields update area number)) }
{
    let depth = decimal(alloc, update % 50)?;
    draft.begin(number)?;
    put_identifier(&mut draft.text, update, area)?;
    draft.end_field(*b"FRID")?;
    put_attribute(&mut draft.text, DRVAL1, depth.as_slice())?;
    draft.end_field(*b"ATTF")
}

/// Adds the record of the general information.
#[tactic(auto, using(crate::proofs::Framed::record_bytes_only_fields))]
fn put_general(file: &mut CellFile, alloc: Global, header: &Header) -> Result<(), AllocError>
    ensures bytes { OnOk result (file.new.bytes
        ≡ file.old.bytes ++ record_of of_data (revision_fields file.old.number header.now)) }
    ensures number { OnOk result (file.new.number ≡ next_number file.old.number) }
{
    draft_revision(alloc, &mut file.draft, file.number, header)?;
    file.put_record()?;
    Ok(())
}

/// Adds the record that modifies an area.
#[tactic(auto, using(crate::proofs::Framed::record_bytes_only_fields), unfolding(crate::specs::Generator::modification))]
fn put_area(file: &mut CellFile, alloc: Global, update: u32, area: u32) -> Result<(), AllocError>
    requires { IsInRange 1 999 update }
    ensures bytes { OnOk result (file.new.bytes ≡ file.old.bytes ++ modification update area file.old.number) }
    ensures number { OnOk result (file.new.number ≡ next_number file.old.number) }
{
    draft_area(alloc, &mut file.draft, file.number, update, area)?;
    file.put_record()?;
    Ok(())
}

/// Adds the record that modifies an area, where the update modifies it.
#[tactic(auto, unfolding(crate::specs::Written::records_from, crate::specs::Written::number_behind))]
fn put_where_modified(
    file: &mut CellFile,
    alloc: Global,
    update: u32,
    area: u32,
) -> Result<(), AllocError>
    requires { IsInRange 1 999 update }
    ensures bytes { OnOk result (file.new.bytes ≡ file.old.bytes
        ++ records_from file.old.number (map (modification update) (filter (is_modified update) (area ∷ [])))) }
    ensures number { OnOk result (file.new.number
        ≡ number_behind file.old.number (map (modification update) (filter (is_modified update) (area ∷ [])))) }
{
    if area % AREA_STRIDE == update % AREA_STRIDE {
        put_area(file, alloc, update, area)
    } else {
        Ok(())
    }
}

/// Adds the records that modify areas, in the order of their numbers.
#[tactic(auto, unfolding(crate::specs::Generator::modified_areas, crate::specs::Generator::numbers_to, crate::specs::Written::records_from, crate::specs::Written::number_behind))]
fn put_areas(file: &mut CellFile, alloc: Global, update: u32, count: u32) -> Result<(), AllocError>
    requires update { IsInRange 1 999 update }
    requires count { count ≤ 20000 }
    ensures { OnOk result (file.new.bytes
        ≡ file.old.bytes ++ records_from file.old.number (map (modification update) (modified_areas update count))) }
{
    for before in 0..count {
        put_where_modified(file, alloc, update, before + 1)?;
    }
    Ok(())
}

/// How many areas of so many an update modifies: one data record of the update is of each.
pub fn modified_count(update: u32, areas: u32) -> u32
    requires { areas ≤ 20000 }
    ensures count { result ≡ length (modified_areas update areas) }
    ensures most { result ≤ 20000 }
{
    let mut count = 0;
    for before in 0..areas {
        if (before + 1) % AREA_STRIDE == update % AREA_STRIDE {
            count += 1;
        }
    }
    count
}

/// Makes update `u` of the cell for trials with `n` depth areas ([`make_cell`](crate::make_cell)): it sets the least
/// depth (DRVAL1) of each area `i` where `i` and `u` are equal modulo 30 to `u` modulo 50 metres, in the order of their
/// numbers. The version that an area then has goes up by one with every thirtieth update.
///
/// # Errors
///
/// Want of memory.
pub fn make_update(alloc: Global, n: u32, u: u32) -> Result<Octets, AllocError>
    requires areas { IsInRange 1 20000 n }
    requires update { IsInRange 1 999 u }
    ensures { IfOk result (λ file. file ≡ made_update n u) }
{
    let mut file = CellFile::new(alloc);
    put_descriptive_record(&mut file.bytes)?;
    put_general(&mut file, alloc, &made_header(n, u, 0))?;
    put_areas(&mut file, alloc, u, n)?;
    Ok(file.into_bytes())
}
