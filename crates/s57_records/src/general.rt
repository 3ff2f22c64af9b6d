//! The general information of a data set.
//!
//! It comes first, since it says how the other records are read: those of a base file insert.

ghost use Rattle.std.specs.Prelude.{IfOk};
ghost use Rattle.chart_model.specs.Key.{IsKey};
ghost use Rattle.s57_records.specs.Answers.{Gives};
ghost use Rattle.s57_records.specs.Rows.{checked_edition, general_of, checked_structure, scale_of};
ghost use Rattle.s57_records.specs.RecordReading.{subfields_in};

use crate::fault::DatasetFault;
use crate::reader::{DataRecord, reads_as};
use chart_model::Key;
use s57_subfields::key_of;
use s57_subfields::labels::{AALL, COMF, COUN, DUNI, EDTN, PROF, SOMF};
use s57_subfields::tags::{DSID, DSPM, DSSI};
use std::alloc::Global;

/// The general information of a data set.
#[derive(Clone, Copy, Debug)]
pub(crate) struct General {
    pub key: Key,
    pub edition: u32,
    pub update: u32,
    pub issued: [u8; 8],
    pub base: bool,
    pub agency: u16,
}

/// Refuses an edition of 0 in a base file.
fn check_edition(alloc: Global, fields: &DataRecord<'_>, edition: u32) -> Result<(), DatasetFault>
    ensures { Gives result (checked_edition (subfields_in fields.now) edition) }
{
    if edition != 0 {
        return Ok(());
    }
    let row = &fields.rows.general().dsid;
    if reads_as(alloc, &fields.values(DSID), &row.prof, 1)? {
        return Err(DatasetFault::Profile(EDTN));
    }
    Ok(())
}

/// The general information: PROF is 1 for a base file, whose edition isn't 0, and 2 for an update.
#[tactic(auto, unfolding(crate::specs::Rows::general_of))]
pub(crate) fn read_general(alloc: Global, fields: &DataRecord<'_>) -> Result<General, DatasetFault>
    ensures found { Gives result (general_of (subfields_in fields.now)) }
    ensures key { IfOk result (λ general. IsKey general.key) }
{
    let row = &fields.rows.general().dsid;
    let values = fields.values(DSID);
    let name = row.dsnm.read(alloc, &values)?;
    let key = key_of(name.as_slice());
    let edition = row.edtn.read(alloc, &values)?;
    check_edition(alloc, fields, edition)?;
    let update = row.updn.read(alloc, &values)?;
    let issued = row.isdt.read(alloc, &values)?;
    let prof = row.prof.read(alloc, &values)?;
    if prof != 1 && prof != 2 {
        return Err(DatasetFault::Profile(PROF));
    }
    let agency = row.agen.read(alloc, &values)?;
    Ok(General {
        key,
        edition,
        update,
        issued,
        base: prof == 1,
        agency,
    })
}

/// Tests AALL of DSSI, where it is there: it is 0 or 1.
#[tactic(auto, unfolding(crate::specs::Rows::checked_structure))]
pub(crate) fn check_structure(alloc: Global, fields: &DataRecord<'_>) -> Result<(), DatasetFault>
    ensures { Gives result (checked_structure (subfields_in fields.now)) }
{
    if !fields.has(DSSI) {
        return Ok(());
    }
    let row = &fields.rows.general().dssi;
    let aall = row.aall.read(alloc, &fields.values(DSSI))?;
    if aall > 1 {
        return Err(DatasetFault::Profile(AALL));
    }
    Ok(())
}

/// The denominator of the scale, in the DSPM of a base file. Depths are in metres, coordinates in
/// degrees times 10,000,000, and soundings in decimetres.
#[tactic(auto, unfolding(crate::specs::Rows::scale_of))]
pub(crate) fn read_scale(alloc: Global, fields: &DataRecord<'_>) -> Result<u32, DatasetFault>
    ensures { Gives result (scale_of (subfields_in fields.now)) }
{
    let row = &fields.rows.general().dspm;
    let values = fields.values(DSPM);
    let scale = row.cscl.read(alloc, &values)?;
    if row.duni.read(alloc, &values)? != 1 {
        return Err(DatasetFault::Profile(DUNI));
    }
    if row.coun.read(alloc, &values)? != 1 {
        return Err(DatasetFault::Profile(COUN));
    }
    if row.comf.read(alloc, &values)? != 10_000_000 {
        return Err(DatasetFault::Profile(COMF));
    }
    if row.somf.read(alloc, &values)? != 10 {
        return Err(DatasetFault::Profile(SOMF));
    }
    Ok(scale)
}
