//! A table, and the line that it has for an object.
//!
//! The lines keep their order, since the first one that applies is taken.

ghost use Rattle.std.specs.Prelude.{◌≡◌, ◌++◌, ◌∷◌, [], IfOk, slice_get};
ghost use Rattle.std.specs.Option.{option_copied, option_to_list};
ghost use Rattle.lookup_table.specs.Selection.{applies, is_unconditional, place_for};
ghost use Rattle.lookup_table.specs.Places.{places_from, passes, first_place};

use crate::condition::all_hold;
use crate::index::Index;
use crate::line::TableLine;
use chart_model::{AttrMap, Geom};
use std::alloc::{AllocError, Global};
use std::marker::Model;

/// The lines of a table. Contracts see their list.
///
/// Beside them stand the places of the lines for each class and geometry, so that a selection looks at these alone.
#[derive(Drop)]
pub struct Table {
    lines: Vec<TableLine>,
    index: Index,
}

impl Model for Table {
    ghost use Rattle.std.specs.Prelude.{List};
    ghost use Rattle.lookup_table.specs.declared.line.TableLine.{TableLine as LineValue};
    ghost use Rattle.lookup_table.specs.Index.{IsIndexOf, index_of};

    ghost Value = { List LineValue };

    ghost view = { λ table. table.lines.items };

    ghost invariant = { λ table. IsIndexOf table.lines.items (index_of table.index) };
}

/// Whether a line has conditions and all of them hold of an object with these attributes.
fn applies(line: &TableLine, attrs: &AttrMap) -> bool
    ensures { result ≡ applies attrs.now line.now }
{
    !line.conditions.as_slice().is_empty() && all_hold(&line.conditions, attrs)
}

/// Whether a line has no condition.
fn is_unconditional(line: &TableLine) -> bool
    ensures { result ≡ is_unconditional line.now }
{
    line.conditions.as_slice().is_empty()
}

/// The line at a place, where there is one.
fn line_at(lines: &[TableLine], place: usize) -> Option<&TableLine>
    ensures { option_copied result ≡ slice_get lines.now place }
{
    lines.get(place)
}

/// Whether the line at a place applies to an object with these attributes.
fn applies_at(lines: &[TableLine], place: usize, attrs: &AttrMap) -> bool
    ensures { result ≡ passes (applies attrs.now) (slice_get lines.now place) }
{
    match line_at(lines, place) {
        Some(line) => applies(line, attrs),
        None => false,
    }
}

/// Whether the line at a place has no condition.
fn is_unconditional_at(lines: &[TableLine], place: usize) -> bool
    ensures { result ≡ passes is_unconditional (slice_get lines.now place) }
{
    match line_at(lines, place) {
        Some(line) => is_unconditional(line),
        None => false,
    }
}

/// The first of these places at which a line applies.
fn first_that_applies(lines: &[TableLine], places: &[usize], attrs: &AttrMap) -> Option<usize>
    ensures { result ≡ first_place (applies attrs.now) lines.now places.now }
{
    places
        .iter()
        .copied()
        .find(|place| applies_at(lines, *place, attrs))
}

/// The first of these places at which a line has no condition.
fn first_unconditional(lines: &[TableLine], places: &[usize]) -> Option<usize>
    ensures { result ≡ first_place is_unconditional lines.now places.now }
{
    places
        .iter()
        .copied()
        .find(|place| is_unconditional_at(lines, *place))
}

impl Table {
    /// A table without a line. It takes no memory.
    pub(crate) fn new(alloc: Global) -> Table
        ensures { result ≡ [] }
    {
        Table {
            lines: Vec::new(alloc),
            index: Index::new(alloc),
        }
    }

    /// The table with a line behind the others.
    pub(crate) fn with(self, alloc: Global, line: TableLine) -> Result<Table, AllocError>
        ensures { IfOk result (λ table. table ≡ self ++ line ∷ []) }
    {
        let Table { mut lines, index } = self;
        let index = index.with(alloc, line.class, line.geom, lines.len())?;
        lines.push(line)?;
        Ok(Table { lines, index })
    }

    /// The table with a line behind the others, where there is one.
    pub(crate) fn with_any(
        self,
        alloc: Global,
        line: Option<TableLine>,
    ) -> Result<Table, AllocError>
        ensures { IfOk result (λ table. table ≡ self ++ option_to_list line) }
    {
        match line {
            Some(line) => self.with(alloc, line),
            None => Ok(self),
        }
    }

    /// The lines in their order. It takes no memory.
    pub fn lines(&self) -> &[TableLine]
        ensures { result.now ≡ self.now }
    {
        self.lines.as_slice()
    }

    /// The line at a place, from 0, where there is one. It takes no memory.
    pub fn line(&self, place: usize) -> Option<&TableLine>
        ensures { option_copied result ≡ slice_get self.now place }
    {
        line_at(self.lines(), place)
    }

    /// The places of the lines for a class and a geometry.
    fn places(&self, class: u16, geom: Geom) -> &[usize]
        ensures { result.now ≡ places_from 0 class geom self.now }
    {
        self.index.places(class, geom)
    }

    /// The place of the line for an object of a class and a geometry with these attributes, from 0: the first line for
    /// them with a condition at least, all of which hold; else the first without conditions; none where neither is
    /// there.
    ///
    /// It takes no memory, and looks at the lines of the class and the geometry alone.
    pub fn select(&self, class: u16, geom: Geom, attrs: &AttrMap) -> Option<usize>
        ensures { result ≡ place_for self.now class geom attrs.now }
    {
        let places = self.places(class, geom);
        let lines = self.lines();
        match first_that_applies(lines, places, attrs) {
            Some(place) => Some(place),
            None => first_unconditional(lines, places),
        }
    }
}
