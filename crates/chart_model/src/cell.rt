//! Cells and their records (S-57 Part 3, section 3).
//!
//! A feature has no place of its own, and points to the vector records that give it one, so the two kinds are two maps.
//! An edge's own coordinates leave out those of its nodes, to which it points (chain-node topology).

ghost use Rattle.std.specs.Prelude.{◌≡◌, IfOk};
ghost use Rattle.chart_model.specs.Cell.{IsChartHeader, empty_cell};

use crate::attr_map::AttrMap;
use crate::dataset::Header;
use crate::name::Foid;
use crate::name_map::NameMap;
use crate::record::{Coords, Pointers, RelatedList};
use std::alloc::{AllocError, Global};
use std::marker::Model;

/// A vector record: an isolated node, a connected node or an edge.
#[derive(Debug, Drop)]
pub struct Vector {
    /// The record's version.
    pub version: u16,
    pub attrs: AttrMap,
    /// Of an edge, its begin node and its end node.
    pub pointers: Pointers,
    /// Of an edge, the points between its nodes; of a node, its place, or its soundings.
    pub coords: Coords,
}

/// A feature record.
#[derive(Debug, Drop)]
pub struct Feature {
    /// The geometric primitive: 1 point, 2 line, 3 area, 255 none.
    pub prim: u8,
    /// The group: 1 where the object is part of the skin of the earth.
    pub grup: u8,
    /// The code of the object class.
    pub class: u16,
    /// The record's version.
    pub version: u16,
    pub foid: Foid,
    pub attrs: AttrMap,
    pub related: RelatedList,
    /// The vector records that give the feature its shape.
    pub pointers: Pointers,
}

impl Clone for Vector {
    ghost is_clone = { λ vector copy. copy ≡ vector };

    fn clone(&self) -> Result<Vector, AllocError> {
        Ok(Vector {
            version: self.version,
            attrs: self.attrs.clone()?,
            pointers: self.pointers.clone()?,
            coords: self.coords.clone()?,
        })
    }
}

impl Clone for Feature {
    ghost is_clone = { λ feature copy. copy ≡ feature };

    fn clone(&self) -> Result<Feature, AllocError> {
        Ok(Feature {
            prim: self.prim,
            grup: self.grup,
            class: self.class,
            version: self.version,
            foid: self.foid,
            attrs: self.attrs.clone()?,
            related: self.related.clone()?,
            pointers: self.pointers.clone()?,
        })
    }
}

/// Vector records by name.
pub type VectorMap = NameMap<Vector>;

/// Feature records by name.
pub type FeatureMap = NameMap<Feature>;

/// A cell: its general information and its records.
#[derive(Debug, Drop)]
pub struct Cell {
    pub header: Header,
    pub vectors: VectorMap,
    pub features: FeatureMap,
}

impl Model for Cell {
    ghost use Rattle.chart_model.specs.Cell.{CellValue, IsCell, cell_code};

    ghost Value = { CellValue };

    ghost coded = { cell_code };

    ghost view = { λ cell. record { header = cell.header; vectors = cell.vectors; features = cell.features } };

    ghost invariant = { λ cell. IsCell
        (record { header = cell.header; vectors = cell.vectors; features = cell.features }) };
}

impl Cell {
    /// A cell without a record. It takes no memory.
    pub fn new(alloc: Global, header: Header) -> Cell
        requires { IsChartHeader header }
        ensures { result ≡ empty_cell header }
    {
        Cell {
            header,
            vectors: NameMap::new(alloc),
            features: NameMap::new(alloc),
        }
    }

    /// An equal cell.
    pub fn copy(&self, _alloc: Global) -> Result<Cell, AllocError>
        ensures { IfOk result (λ copy. copy ≡ self.now) }
    {
        self.clone()
    }
}

impl Clone for Cell {
    ghost is_clone = { λ cell copy. copy ≡ cell };

    fn clone(&self) -> Result<Cell, AllocError> {
        Ok(Cell {
            header: self.header,
            vectors: self.vectors.clone()?,
            features: self.features.clone()?,
        })
    }
}
