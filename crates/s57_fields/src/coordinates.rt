//! Coordinates in two dimensions (SG2D), and in three, which are soundings (SG3D).
//!
//! The rows of the two differ in the depth alone.

ghost use Rattle.std.specs.Option.{option_copied};
ghost use Rattle.std.specs.Prelude.{◌≡◌, IfOk};
ghost use Rattle.chart_model.specs.Record.{AreCoords, IsCoord};
ghost use Rattle.s57_subfields.specs.Answers.{Gives};
ghost use Rattle.s57_fields.specs.Coordinates.{sg2d_at, sg3d_at};

use crate::bounds::{LATITUDE, LONGITUDE};
use crate::faults::first_fault;
use crate::file::record_at;
use chart_model::{Coord, Coords};
use iso8211_formats::Descriptor;
use iso8211_records::{RecordFile, Value};
use s57_subfields::labels::{VE3D, XCOO, YCOO};
use s57_subfields::{Depth, FieldFault, Group, Groups, RowFields, Subfield, Within, tags};
use std::alloc::{AllocError, Global};

/// A row SG2D or SG3D as it stands in a file's descriptor.
#[derive(Clone, Copy, Debug)]
pub struct CoordinateRow {
    pub groups: Groups,
    pub ycoo: Subfield,
    pub xcoo: Subfield,
    /// The depth, which SG3D alone has.
    pub ve3d: Option<Subfield>,
}

impl Group for CoordinateRow {
    ghost use Rattle.s57_fields.specs.Coordinates.{coordinate_in, coordinate_columns, IsDepthUnder};
    ghost use Rattle.s57_fields.specs.Unread.{coordinate-unread};

    type Output = Coord;

    ghost reads = { coordinate_in };

    ghost columns = { coordinate_columns };

    ghost holds = { λ row coord. IsCoord coord × IsDepthUnder row.ve3d coord.z };

    fn read(&self, alloc: Global, group: &[Value]) -> Result<Option<Coord>, AllocError> {
        let latitude = Within { most: LATITUDE };
        let Some(y) = self.ycoo.in_group(alloc, group, &latitude)? else {
            return Ok(None);
        };
        let longitude = Within { most: LONGITUDE };
        let Some(x) = self.xcoo.in_group(alloc, group, &longitude)? else {
            return Ok(None);
        };
        let Some(ve3d) = &self.ve3d else {
            return Ok(Some(Coord { x, y, z: None }));
        };
        let Some(depth) = ve3d.in_group(alloc, group, &Depth)? else {
            return Ok(None);
        };
        Ok(Some(Coord {
            x,
            y,
            z: Some(depth),
        }))
    }

    fn first_fault(&self, groups: &Groups, values: &RowFields<'_>) -> Option<FieldFault> {
        let latitude = Within { most: LATITUDE };
        let longitude = Within { most: LONGITUDE };
        match &self.ve3d {
            None => first_fault!(
                self.ycoo.fault(groups, values, &latitude),
                self.xcoo.fault(groups, values, &longitude),
            ),
            Some(ve3d) => first_fault!(
                self.ycoo.fault(groups, values, &latitude),
                self.xcoo.fault(groups, values, &longitude),
                ve3d.fault(groups, values, &Depth),
            ),
        }
    }

    ghost unread = { coordinate-unread };
}

impl CoordinateRow {
    ghost use Rattle.s57_fields.specs.Coordinates.{sg2d_row, sg3d_row, coordinates_in};

    /// Finds the row SG2D in the descriptor of the file's field. It takes no memory.
    pub fn find_sg2d(descriptor: Option<&Descriptor>) -> CoordinateRow
        ensures { result ≡ sg2d_row (option_copied descriptor.entry) }
    {
        CoordinateRow {
            groups: Groups::find(descriptor),
            ycoo: Subfield::find(descriptor, YCOO),
            xcoo: Subfield::find(descriptor, XCOO),
            ve3d: None,
        }
    }

    /// Finds the row SG3D in the descriptor of the file's field. It takes no memory.
    pub fn find_sg3d(descriptor: Option<&Descriptor>) -> CoordinateRow
        ensures { result ≡ sg3d_row (option_copied descriptor.entry) }
    {
        CoordinateRow {
            ve3d: Some(Subfield::find(descriptor, VE3D)),
            ..CoordinateRow::find_sg2d(descriptor)
        }
    }

    /// Reads coordinates, with depths by the row SG3D alone: the empty list where the record has no such
    /// field. The depths are in centimetres.
    ///
    /// # Errors
    ///
    /// The first `MissingField` or `Value` by subfield in the order of the row, over all groups of all
    /// fields of the tag; `NoMemory`.
    pub fn read(&self, alloc: Global, values: &RowFields<'_>) -> Result<Coords, FieldFault>
        ensures found { Gives result (coordinates_in self.now values.now) }
        ensures coords { IfOk result AreCoords }
    {
        Ok(Coords::from_vec(self.groups.read_list(alloc, values, self)?))
    }
}

/// Reads the coordinates without depths of a vector record: the row SG2D of this data record, counted from 1.
/// The empty list where the record has no such field.
///
/// # Errors
///
/// The first `MissingField` or `Value` in the order of the row; `NoMemory`.
pub fn read_sg2d(alloc: Global, file: &RecordFile, number: usize) -> Result<Coords, FieldFault>
    ensures found { Gives result (sg2d_at file.now number) }
    ensures coords { IfOk result AreCoords }
{
    let row = CoordinateRow::find_sg2d(file.descriptors.get(&tags::SG2D));
    let values = RowFields::new(number, tags::SG2D, record_at(file, number));
    row.read(alloc, &values)
}

/// Reads the coordinates with depths of a vector record: the row SG3D of this data record, counted from 1.
/// The depths are in centimetres.
/// The empty list where the record has no such field.
///
/// # Errors
///
/// The first `MissingField` or `Value` in the order of the row; `NoMemory`.
pub fn read_sg3d(alloc: Global, file: &RecordFile, number: usize) -> Result<Coords, FieldFault>
    ensures found { Gives result (sg3d_at file.now number) }
    ensures coords { IfOk result AreCoords }
{
    let row = CoordinateRow::find_sg3d(file.descriptors.get(&tags::SG3D));
    let values = RowFields::new(number, tags::SG3D, record_at(file, number));
    row.read(alloc, &values)
}
