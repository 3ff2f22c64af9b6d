//! What a cell file says: its header and the changes that its records stand for.
//!
//! Base files and updates are one type: the records of a base file are changes that insert, and a chart is made by the
//! same changes in either case. An update of edition 0 cancels its cell, and has none.

use crate::key::Key;
use crate::sequence::Sequence;
use crate::update_record::UpdateRecord;
use std::marker::Model;

/// The general information of a cell.
#[derive(Clone, Copy, Debug)]
pub struct Header {
    pub key: Key,
    /// The edition: 0 only in a file that cancels its cell.
    pub edition: u32,
    pub update: u32,
    /// The date of issue as `CCYYMMDD`, or any eight bytes that stand there.
    pub issued: [u8; 8],
    /// The code of the producing agency.
    pub agency: u16,
    /// The denominator of the compilation scale; 0 in an update.
    pub scale: u32,
}

/// Changes in the order of a file's records.
pub type ChangeList = Sequence<UpdateRecord>;

/// What a cell file says. The changes of a base file insert its records; a file that cancels its cell
/// has none.
#[derive(Debug, Drop)]
pub struct Dataset {
    pub header: Header,
    pub base: bool,
    pub cancels: bool,
    pub changes: ChangeList,
}

impl Model for Dataset {
    ghost use Rattle.chart_model.specs.Dataset.{DatasetValue, IsDataset};

    ghost Value = { DatasetValue };

    ghost view = { λ dataset. record {
      header = dataset.header;
      base = dataset.base;
      cancels = dataset.cancels;
      changes = dataset.changes;
    } };

    ghost invariant = { λ dataset. IsDataset (record {
      header = dataset.header;
      base = dataset.base;
      cancels = dataset.cancels;
      changes = dataset.changes;
    }) };
}
