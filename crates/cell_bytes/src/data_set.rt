//! The general information of a data set as bytes (S-57 Part 3, 7.3).
//!
//! A chart keeps less of it than a file has. What isn't kept is written as for a harbour chart, so the file stands for
//! the records of the chart, and not for all that the file said from which it was loaded.

ghost use Rattle.std.specs.Prelude.{◌≡◌, ◌++◌, ◌+◌, if◌then◌else◌, length, IfOk, OnOk};
ghost use Rattle.chart_model.specs.Cell.{IsChartHeader};
ghost use Rattle.cell_bytes.specs.Record.{digits};
ghost use Rattle.cell_bytes.specs.DataSet.{data_set_identifier, datum_text, dates_text, exchange_text, extension};
ghost use Rattle.cell_bytes.specs.DataSet.{factor_text, feature_counts, features_in, features_outside};
ghost use Rattle.cell_bytes.specs.DataSet.{name_and_numbers, number_text, parameter_text, product_text, purpose_code};
ghost use Rattle.cell_bytes.specs.DataSet.{structure_text, unit_text, vector_counts, vectors_of};
ghost use Rattle.cell_bytes.specs.FieldValues.{IsFourBytes};
ghost use Rattle.cell_bytes.specs.RecordsRead.{AreCountsInRange, AreFeatureCountsInRange, AreVectorCountsInRange};
ghost use Rattle.cell_bytes.specs.RecordsRead.{IsHeaderInRange};

use crate::subfields::{put_b11, put_b12, put_b14, put_text};
use chart_model::codes::{CONNECTED_NODE, EDGE, ISOLATED_NODE, UNIT_TERMINATOR};
use chart_model::{Cell, Header, Octets};
use std::alloc::{AllocError, Global};
use text_scan::write_number;

/// The record name (RCNM) of the general information of a data set (S-57 Part 3).
const GENERAL_INFORMATION: u8 = 10;

/// The record name (RCNM) of the geographic reference of a data set (S-57 Part 3).
const GEOGRAPHIC_REFERENCE: u8 = 20;

/// The record identification number (RCID) of the only record of its name.
const ONLY_RECORD: u32 = 1;

/// The intended usage (INTU) harbour.
const HARBOUR: u8 = 5;

/// The product specification (PRSP) of electronic navigational charts.
const ENC: u8 = 1;

/// The data structure (DSTR) chain-node topology.
const CHAIN_NODE: u8 = 2;

/// The lexical level (AALL) of the attributes of features: ISO/IEC 8859-1.
const LATIN_1: u8 = 1;

/// The lexical level (NALL) of national attributes, of which none is written: ASCII.
const ASCII: u8 = 0;

/// The first and the last class of meta objects.
const META: (u16, u16) = (300, 399);

/// The first and the last class of collections.
const COLLECTIONS: (u16, u16) = (400, 499);

/// The first and the last class of cartographic objects.
const CARTOGRAPHIC: (u16, u16) = (500, 599);

/// The horizontal datum (HDAT) WGS 84.
const WGS_84: u8 = 2;

/// The vertical datum and the sounding datum (VDAT, SDAT) mean low water springs.
const MEAN_LOW_WATER_SPRINGS: u8 = 1;

/// The unit of depths, of heights and of positional accuracy (DUNI, HUNI, PUNI): metres.
const METRES: u8 = 1;

/// The unit of coordinates (COUN): latitude and longitude.
const LATITUDE_AND_LONGITUDE: u8 = 1;

/// What coordinates are multiplied by (COMF).
const COORDINATE_FACTOR: u32 = 10_000_000;

/// What depths are multiplied by (SOMF).
const SOUNDING_FACTOR: u32 = 10;

/// What a data set is for (S-57 Part 3, EXPP; Appendix B.1, PROF).
#[derive(Clone, Copy, Debug)]
pub(crate) enum Purpose {
    /// A base file.
    NewDataSet,
    /// An update.
    Revision,
}

/// The code of a purpose, in EXPP as in PROF.
fn purpose_code(purpose: Purpose) -> u8
    ensures { result ≡ purpose_code purpose }
{
    match purpose {
        Purpose::NewDataSet => 1,
        Purpose::Revision => 2,
    }
}

/// The extension of a file's name.
#[tactic(auto, unfolding(crate::specs::Record::digits))]
fn extension(purpose: Purpose, update: u32) -> [u8; 3]
    ensures { result ≡ extension purpose update }
{
    let digit = |place: u32| b'0' + (update / place % 10) as u8;
    match purpose {
        Purpose::NewDataSet => *b"000",
        Purpose::Revision => [digit(100), digit(10), digit(1)],
    }
}

/// Adds a number in decimal digits.
#[tactic(auto, unfolding(crate::specs::DataSet::number_text, crate::specs::Subfields::open_text))]
fn put_number(alloc: Global, out: &mut Octets, number: u32) -> Result<(), AllocError>
    ensures { OnOk result (out.new ≡ out.old ++ number_text number) }
{
    write_number(alloc, out, i128::from(number))?;
    out.extend_from_slice(&[UNIT_TERMINATOR])
}

/// Adds RCNM, RCID, EXPP and INTU.
#[tactic(auto, unfolding(crate::specs::DataSet::exchange_text))]
fn put_exchange(out: &mut Octets, purpose: Purpose) -> Result<(), AllocError>
    ensures { OnOk result (out.new ≡ out.old ++ exchange_text purpose) }
{
    put_b11(out, GENERAL_INFORMATION)?;
    put_b14(out, ONLY_RECORD)?;
    put_b11(out, purpose_code(purpose))?;
    put_b11(out, HARBOUR)
}

/// Adds DSNM, EDTN and UPDN.
#[tactic(auto, unfolding(crate::specs::DataSet::name_and_numbers, crate::specs::Subfields::open_text))]
fn put_name_and_numbers(
    alloc: Global,
    out: &mut Octets,
    purpose: Purpose,
    header: &Header,
) -> Result<(), AllocError>
    ensures { OnOk result (out.new ≡ out.old ++ name_and_numbers purpose header.now) }
{
    out.extend_from_slice(header.key.as_slice())?;
    out.extend_from_slice(b".")?;
    put_text(out, &extension(purpose, header.update))?;
    put_number(alloc, out, header.edition)?;
    put_number(alloc, out, header.update)
}

/// Adds UADT, ISDT and STED.
#[tactic(auto, unfolding(crate::specs::DataSet::dates_text))]
fn put_dates(out: &mut Octets, header: &Header) -> Result<(), AllocError>
    ensures bytes { OnOk result (out.new ≡ out.old ++ dates_text header.now) }
    ensures issued { length header.now.issued ≡ 8 }
{
    out.extend_from_slice(&header.issued)?;
    out.extend_from_slice(&header.issued)?;
    out.extend_from_slice(b"03.1")
}

/// Adds PRSP, PSDN, PRED, PROF, AGEN and COMT.
#[tactic(auto, unfolding(crate::specs::DataSet::product_text))]
fn put_product(out: &mut Octets, purpose: Purpose, agency: u16) -> Result<(), AllocError>
    ensures { OnOk result (out.new ≡ out.old ++ product_text purpose agency) }
{
    put_b11(out, ENC)?;
    put_text(out, &[])?;
    put_text(out, b"2.0")?;
    put_b11(out, purpose_code(purpose))?;
    put_b12(out, agency)?;
    put_text(out, &[])
}

/// Adds the identification of a data set (DSID).
#[tactic(auto, unfolding(crate::specs::DataSet::data_set_identifier))]
pub(crate) fn put_identification(
    alloc: Global,
    out: &mut Octets,
    purpose: Purpose,
    header: &Header,
) -> Result<(), AllocError>
    ensures bytes { OnOk result (out.new ≡ out.old ++ data_set_identifier purpose header.now) }
    ensures in_range { OnOk result
        (IsChartHeader header.now → IsFourBytes header.now.scale → IsHeaderInRange header.now) }
{
    put_exchange(out, purpose)?;
    put_name_and_numbers(alloc, out, purpose, header)?;
    put_dates(out, header)?;
    put_product(out, purpose, header.agency)
}

/// The count with one more, where it is one of those that are counted. A number that doesn't fit is want of memory.
fn counted(count: u32, is_one: bool) -> Result<u32, AllocError>
    ensures { IfOk result (λ after. after ≡ count + (if is_one then 1 else 0)) }
{
    if is_one {
        count.checked_add(1).ok_or(AllocError)
    } else {
        Ok(count)
    }
}

/// How many vector records of a kind there are.
#[tactic(auto, unfolding(crate::specs::DataSet::vectors_of))]
fn count_vectors(cell: &Cell, rcnm: u8) -> Result<u32, AllocError>
    ensures { IfOk result (λ count. count ≡ vectors_of cell.now rcnm) }
{
    let mut count = 0;
    for (name, _) in cell.vectors.iter() {
        count = counted(count, name.rcnm == rcnm)?;
    }
    Ok(count)
}

/// How many features have a class from the first to the last.
#[tactic(auto, unfolding(crate::specs::DataSet::features_in))]
fn count_features(cell: &Cell, first: u16, last: u16) -> Result<u32, AllocError>
    ensures { IfOk result (λ count. count ≡ features_in cell.now first last) }
{
    let mut count = 0;
    for (_, feature) in cell.features.iter() {
        count = counted(count, first <= feature.class && feature.class <= last)?;
    }
    Ok(count)
}

/// How many features have another class. A number that doesn't fit is want of memory.
#[tactic(auto, using(crate::proofs::Counts::features_parted))]
fn count_others(cell: &Cell, first: u16, last: u16) -> Result<u32, AllocError>
    ensures { IfOk result (λ count. count ≡ features_outside cell.now first last) }
{
    let Ok(all) = u32::try_from(cell.features.len()) else {
        return Err(AllocError);
    };
    Ok(all - count_features(cell, first, last)?)
}

/// Adds NOMR, NOCR, NOGR and NOLR.
#[tactic(auto, unfolding(crate::specs::DataSet::feature_counts))]
fn put_feature_counts(out: &mut Octets, cell: &Cell) -> Result<(), AllocError>
    ensures bytes { OnOk result (out.new ≡ out.old ++ feature_counts cell.now) }
    ensures in_range { OnOk result (AreFeatureCountsInRange cell.now) }
{
    put_b14(out, count_features(cell, META.0, META.1)?)?;
    put_b14(out, count_features(cell, CARTOGRAPHIC.0, CARTOGRAPHIC.1)?)?;
    put_b14(out, count_others(cell, META.0, CARTOGRAPHIC.1)?)?;
    put_b14(out, count_features(cell, COLLECTIONS.0, COLLECTIONS.1)?)
}

/// Adds NOIN, NOCN, NOED and NOFA.
#[tactic(auto, unfolding(crate::specs::DataSet::vector_counts))]
fn put_vector_counts(out: &mut Octets, cell: &Cell) -> Result<(), AllocError>
    ensures bytes { OnOk result (out.new ≡ out.old ++ vector_counts cell.now) }
    ensures in_range { OnOk result (AreVectorCountsInRange cell.now) }
{
    put_b14(out, count_vectors(cell, ISOLATED_NODE)?)?;
    put_b14(out, count_vectors(cell, CONNECTED_NODE)?)?;
    put_b14(out, count_vectors(cell, EDGE)?)?;
    put_b14(out, 0)
}

/// Adds the structure of a data set (DSSI).
#[tactic(auto, unfolding(crate::specs::DataSet::structure_text))]
pub(crate) fn put_structure(out: &mut Octets, cell: &Cell) -> Result<(), AllocError>
    ensures bytes { OnOk result (out.new ≡ out.old ++ structure_text cell.now) }
    ensures in_range { OnOk result (AreCountsInRange cell.now) }
{
    put_b11(out, CHAIN_NODE)?;
    put_b11(out, LATIN_1)?;
    put_b11(out, ASCII)?;
    put_feature_counts(out, cell)?;
    put_vector_counts(out, cell)
}

/// Adds RCNM, RCID, HDAT, VDAT, SDAT and CSCL.
#[tactic(auto, unfolding(crate::specs::DataSet::datum_text))]
fn put_datums(out: &mut Octets, scale: u32) -> Result<(), AllocError>
    ensures { OnOk result (out.new ≡ out.old ++ datum_text scale) }
{
    put_b11(out, GEOGRAPHIC_REFERENCE)?;
    put_b14(out, ONLY_RECORD)?;
    put_b11(out, WGS_84)?;
    put_b11(out, MEAN_LOW_WATER_SPRINGS)?;
    put_b11(out, MEAN_LOW_WATER_SPRINGS)?;
    put_b14(out, scale)
}

/// Adds DUNI, HUNI, PUNI and COUN.
#[tactic(auto, unfolding(crate::specs::DataSet::unit_text))]
fn put_units(out: &mut Octets) -> Result<(), AllocError>
    ensures { OnOk result (out.new ≡ out.old ++ unit_text) }
{
    put_b11(out, METRES)?;
    put_b11(out, METRES)?;
    put_b11(out, METRES)?;
    put_b11(out, LATITUDE_AND_LONGITUDE)
}

/// Adds COMF, SOMF and COMT.
#[tactic(auto, unfolding(crate::specs::DataSet::factor_text))]
fn put_factors(out: &mut Octets) -> Result<(), AllocError>
    ensures { OnOk result (out.new ≡ out.old ++ factor_text) }
{
    put_b14(out, COORDINATE_FACTOR)?;
    put_b14(out, SOUNDING_FACTOR)?;
    put_text(out, &[])
}

/// Adds the parameters of a data set (DSPM).
#[tactic(auto, unfolding(crate::specs::DataSet::parameter_text))]
pub(crate) fn put_parameters(out: &mut Octets, scale: u32) -> Result<(), AllocError>
    ensures { OnOk result (out.new ≡ out.old ++ parameter_text scale) }
{
    put_datums(out, scale)?;
    put_units(out)?;
    put_factors(out)
}
