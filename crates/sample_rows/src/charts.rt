//! Charts of rows.
//!
//! A chart is made by changes, as one that is loaded is, and not put together by hand. So a row that doesn't fit the
//! rows before it fails its test.

use crate::changes::change;
use crate::rows::Row;
use chart_model::{Cell, Header, Key};
use std::alloc::Global;
use std::test::Fail;
use update_apply::apply_record;

/// Makes the changes of rows to a chart.
pub fn add_rows(alloc: Global, cell: &mut Cell, rows: &[Row]) -> Result<(), Fail> {
    for row in rows {
        apply_record(alloc, cell, &change(alloc, row)?)?;
    }
    Ok(())
}

/// A chart without a record.
fn empty_chart(alloc: Global) -> Result<Cell, Fail> {
    let header = Header {
        key: Key::from_bytes(b"AA5TEST1").ok_or("a key")?,
        edition: 1,
        update: 0,
        issued: *b"20260101",
        agency: 1,
        scale: 50_000,
    };
    Ok(Cell::new(alloc, header))
}

/// The chart of the rows, which are insertions.
pub fn chart(alloc: Global, rows: &[Row]) -> Result<Cell, Fail> {
    let mut cell = empty_chart(alloc)?;
    add_rows(alloc, &mut cell, rows)?;
    Ok(cell)
}
