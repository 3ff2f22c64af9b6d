//! Laws of the definitions.
//!
//! They hold of what records say, whatever reads them.

ghost use Rattle.std.specs.Prelude.{◌≡◌, ℕ, Bool, true, false, List, All, Ok};
ghost use Rattle.chart_model.specs.Change.{Change, IsChange};
ghost use Rattle.chart_model.specs.Dataset.{DatasetValue, IsDataset, IsPlainInsert};
ghost use Rattle.iso8211_records.specs.declared.record.RawField.{RawField};
ghost use Rattle.s57_records.specs.Rows.{vector_of, feature_of};
ghost use Rattle.s57_records.specs.Dataset.{dataset_of};
ghost use Rattle.s57_records.specs.LayoutReadings.{Layouts, subfields_of, all_subfields};

use chart_model::keys_are_tested;

/// What records say keeps what every data set keeps.
pub fn data_sets_are_kept()
    ensures { (layouts : Layouts) (records : List (List RawField)) (value : DatasetValue) →
        dataset_of (all_subfields layouts 1 records) ≡ Ok value → IsDataset value }
{
    keys_are_tested();
}

/// What a vector record or a feature says keeps what every change keeps, and so do the changes of a
/// data set.
pub fn changes_are_kept()
    ensures vector { (base : Bool) (layouts : Layouts) (n : ℕ) (fields : List RawField) (change : Change) →
        vector_of base n (subfields_of layouts n fields) ≡ Ok change → IsChange change }
    ensures feature { (base : Bool) (layouts : Layouts) (n : ℕ) (fields : List RawField) (change : Change) →
        feature_of base n (subfields_of layouts n fields) ≡ Ok change → IsChange change }
    ensures each { (layouts : Layouts) (records : List (List RawField)) (value : DatasetValue) →
        dataset_of (all_subfields layouts 1 records) ≡ Ok value → All IsChange value.changes }
{}

/// The records of a base file insert, and edit no list.
pub fn base_records_insert()
    ensures vector { (layouts : Layouts) (n : ℕ) (fields : List RawField) (change : Change) →
        vector_of true n (subfields_of layouts n fields) ≡ Ok change → IsPlainInsert change }
    ensures feature { (layouts : Layouts) (n : ℕ) (fields : List RawField) (change : Change) →
        feature_of true n (subfields_of layouts n fields) ≡ Ok change → IsPlainInsert change }
{}
