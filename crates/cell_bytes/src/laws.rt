//! What holds of written bytes where they are read.
//!
//! Writing and reading are defined apart, and share no definition but those of the formats. That one undoes the other
//! is said here, layer by layer: values of subfields, fields, records, the data descriptive record, the file.

ghost use Rattle.std.specs.Prelude.{◌≡◌, ℕ, ℤ, Ok, pos, ◌<◌, ◌≤◌, FitsSigned, List, length};
ghost use Rattle.std.specs.Int.{w32};
ghost use Rattle.std.specs.List.{AllByRecursion, flat_map};
ghost use Rattle.std.specs.FinMap as map;
ghost use Rattle.chart_model.specs.Record.{IsPlainText};
ghost use Rattle.chart_model.specs.Cell.{CellValue};
ghost use Rattle.chart_model.specs.declared.name.Name.{Name as RecordName};
ghost use Rattle.chart_model.specs.declared.cell.Vector.{Vector as VectorRecord};
ghost use Rattle.chart_model.specs.declared.cell.Feature.{Feature as FeatureRecord};
ghost use Rattle.chart_model.specs.Attrs.{Attrs};
ghost use Rattle.chart_model.specs.declared.record.Pointer.{Pointer as SpatialPointer};
ghost use Rattle.chart_model.specs.declared.record.Coord.{Coord as Coordinate};
ghost use Rattle.chart_model.specs.declared.record.Related.{Related as RelatedObject};
ghost use Rattle.chart_model.specs.declared.name.Foid.{Foid as ObjectName};
ghost use Rattle.iso8211_formats.specs.declared.format.Format.TheVariants.{Signed, TextOpen, Unsigned};
ghost use Rattle.iso8211_records.specs.declared.value.Value.TheVariants.{Number, Text as TextValue};
ghost use Rattle.iso8211_records.specs.Spelling.{formats_in, IsFieldText, Spells};
ghost use Rattle.iso8211_records.specs.Record.{IsDescriptiveRecord};
ghost use Rattle.iso8211_records.specs.RecordFile.{IsRecordFile, record_file_of};
ghost use Rattle.cell_bytes.specs.FieldValues.{attribute_values, feature_identifier_values, feature_pointer_values};
ghost use Rattle.cell_bytes.specs.FieldValues.{IsCoordInRange, IsEntryInRange, IsFeatureInRange, IsFoidInRange};
ghost use Rattle.cell_bytes.specs.FieldValues.{IsNameInRange, IsPointerInRange, IsRelatedInRange, IsTwoBytes};
ghost use Rattle.cell_bytes.specs.FieldValues.{object_values, point_values, related_values, sounding_values};
ghost use Rattle.cell_bytes.specs.FieldValues.{vector_identifier_values, vector_pointer_values};
ghost use Rattle.cell_bytes.specs.Layouts.{ATTRIBUTES, FFPT, FOID, FRID, FSPT, layouts, SG2D, SG3D, tags_read, VRID};
ghost use Rattle.cell_bytes.specs.Layouts.{VRPT};
ghost use Rattle.cell_bytes.specs.Vector.{attributes, point, sounding, vector_fields, vector_identifier};
ghost use Rattle.cell_bytes.specs.Vector.{vector_pointer};
ghost use Rattle.cell_bytes.specs.Feature.{feature_fields, feature_identifier, feature_pointer, object_name};
ghost use Rattle.cell_bytes.specs.Feature.{related_object};
ghost use Rattle.cell_bytes.specs.Subfields.{b11, b12, b14, b24, open_text};
ghost use Rattle.cell_bytes.specs.RecordsRead.{IsCellInRange, records_read};
ghost use Rattle.cell_bytes.specs.Descriptive.{descriptive_record};
ghost use Rattle.cell_bytes.specs.Framing.{HasFields};
ghost use Rattle.cell_bytes.specs.Record.{of_data, record_of};
ghost use Rattle.cell_bytes.specs.DataSet.{general_fields, parameter_fields};
ghost use Rattle.cell_bytes.specs.Written.{feature_record, vector_record, base_file_of};

use iso8211_records::reads_each;

/// The bytes of a subfield spell its value by its format.
pub fn values_are_spelled()
    ensures b11 { (number : ℕ) → number < 256 → Spells (Unsigned 1) (Number (pos number)) (b11 number) }
    ensures b12 { (number : ℕ) → number < 65536 → Spells (Unsigned 2) (Number (pos number)) (b12 number) }
    ensures b14 { (number : ℕ) → number < 4294967296 → Spells (Unsigned 4) (Number (pos number)) (b14 number) }
    ensures b24 { (number : ℤ) → FitsSigned w32 number → Spells (Signed 4) (Number number) (b24 number) }
    ensures text { (text : List ℕ) → IsPlainText text → Spells TextOpen (TextValue text) (open_text text) }
{}

/// The data descriptive record is read as the layouts of all fields (S-57 Part 3, section 7).
pub fn the_descriptive_record_is_read()
    ensures { IsDescriptiveRecord tags_read descriptive_record layouts }
{
    reads_each();
}

/// A record that is written, and isn't too long, is read as a data record with its fields in their order, each under
/// its tag and with its bytes (ISO/IEC 8211), whatever tags are looked for.
pub fn records_are_read()
    ensures general { (tags : List (List ℕ)) (number : ℕ) (cell : CellValue)
        → length (record_of of_data (general_fields number cell)) ≤ 99999
        → HasFields tags (record_of of_data (general_fields number cell)) (general_fields number cell) }
    ensures parameters { (tags : List (List ℕ)) (number scale : ℕ)
        → length (record_of of_data (parameter_fields number scale)) ≤ 99999
        → HasFields tags (record_of of_data (parameter_fields number scale)) (parameter_fields number scale) }
    ensures vectors { (tags : List (List ℕ)) (number : ℕ) (name : RecordName) (vector : VectorRecord)
        → length (vector_record name vector number) ≤ 99999
        → HasFields tags (vector_record name vector number) (vector_fields number name vector) }
    ensures features { (tags : List (List ℕ)) (number : ℕ) (name : RecordName) (feature : FeatureRecord)
        → length (feature_record name feature number) ≤ 99999
        → HasFields tags (feature_record name feature number) (feature_fields number name feature) }
{}

/// The texts of fields are spellings of their values, by the layouts that the data descriptive record gives them.
pub fn fields_are_spelled()
    ensures vector_identifier { (name : RecordName) (version : ℕ) → IsNameInRange name → IsTwoBytes version
        → IsFieldText (formats_in VRID) (vector_identifier_values name version) (vector_identifier name version) }
    ensures attributes { (attrs : Attrs) → AllByRecursion IsEntryInRange (map.entries attrs)
        → IsFieldText (formats_in ATTRIBUTES) (flat_map attribute_values (map.entries attrs)) (attributes attrs) }
    ensures vector_pointers { (pointers : List SpatialPointer) → AllByRecursion IsPointerInRange pointers
        → IsFieldText (formats_in VRPT) (flat_map vector_pointer_values pointers) (flat_map vector_pointer pointers) }
    ensures points { (coords : List Coordinate) → AllByRecursion IsCoordInRange coords
        → IsFieldText (formats_in SG2D) (flat_map point_values coords) (flat_map point coords) }
    ensures soundings { (coords : List Coordinate) → AllByRecursion IsCoordInRange coords
        → IsFieldText (formats_in SG3D) (flat_map sounding_values coords) (flat_map sounding coords) }
    ensures feature_identifier { (name : RecordName) (feature : FeatureRecord) → IsNameInRange name
        → IsFeatureInRange feature
        → IsFieldText (formats_in FRID) (feature_identifier_values name feature) (feature_identifier name feature) }
    ensures object { (foid : ObjectName) → IsFoidInRange foid
        → IsFieldText (formats_in FOID) (object_values foid) (object_name foid) }
    ensures related { (related : List RelatedObject) → AllByRecursion IsRelatedInRange related
        → IsFieldText (formats_in FFPT) (flat_map related_values related) (flat_map related_object related) }
    ensures feature_pointers { (pointers : List SpatialPointer) → AllByRecursion IsPointerInRange pointers
        → IsFieldText (formats_in FSPT) (flat_map feature_pointer_values pointers) (flat_map feature_pointer pointers) }
{}

/// The file that is written of a cell is a record file (ISO/IEC 8211), with the layouts of all fields and with the
/// records that the cell stands for, and reading it gives these.
pub fn files_are_read()
    ensures is { (cell : CellValue) (file : List ℕ) → IsCellInRange cell → base_file_of cell ≡ Ok file
        → IsRecordFile tags_read file (record { descriptors = layouts; records = records_read cell }) }
    ensures given { (cell : CellValue) (file : List ℕ) → IsCellInRange cell → base_file_of cell ≡ Ok file
        → record_file_of tags_read file ≡ Ok (record { descriptors = layouts; records = records_read cell }) }
{
    the_descriptive_record_is_read();
    reads_each();
}
