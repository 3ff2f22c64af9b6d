//! Where the lines for a class and a geometry stand.
//!
//! A selection is made for each feature of a cell; with the places of its class and geometry it looks at few lines.

ghost use Rattle.std.specs.Prelude.{◌≡◌, [], IfOk};
ghost use Rattle.chart_model.specs.declared.drawing.Geom.{Geom as GeomValue};
ghost use Rattle.lookup_table.specs.Places.{places_in, HasPlaceMore};
ghost use Rattle.lookup_table.specs.Index.{index_of, AddsPlace};

use chart_model::{Geom, Sequence};
use std::alloc::{AllocError, Global};
use std::collections::BTreeMap;

/// The places of lines by their class, in their order.
type Places = BTreeMap<u16, Sequence<usize>>;

/// The places of the lines for a class. It takes no memory.
fn places_of(places: &Places, class: u16) -> &[usize]
    ensures { result.now ≡ places_in places.now.entries class }
{
    match places.get(&class) {
        Some(here) => here.as_slice(),
        None => &[],
    }
}

/// The places with one more, behind the others of its class.
fn with_place(
    mut places: Places,
    alloc: Global,
    class: u16,
    place: usize,
) -> Result<Places, AllocError>
    ensures { IfOk result (λ more. HasPlaceMore places.entries more.entries class place) }
{
    let mut here = match places.remove(&class) {
        Some(here) => here,
        None => Sequence::new(alloc),
    };
    here.push(place)?;
    places.insert(class, here)?;
    Ok(places)
}

/// The places of lines by their class and geometry.
#[derive(Drop)]
pub struct Index {
    areas: Places,
    lines: Places,
    points: Places,
}

impl Index {
    /// An index of no line. It takes no memory.
    pub fn new(alloc: Global) -> Index
        ensures { (geom : GeomValue) → index_of result geom ≡ [] }
    {
        Index {
            areas: BTreeMap::new(alloc),
            lines: BTreeMap::new(alloc),
            points: BTreeMap::new(alloc),
        }
    }

    /// The index with one place more, behind the others of its class and geometry.
    pub fn with(
        self,
        alloc: Global,
        class: u16,
        geom: Geom,
        place: usize,
    ) -> Result<Index, AllocError>
        ensures { IfOk result (λ more. AddsPlace (index_of self) (index_of more) class geom place) }
    {
        let Index {
            areas,
            lines,
            points,
        } = self;
        match geom {
            Geom::Area => Ok(Index {
                areas: with_place(areas, alloc, class, place)?,
                lines,
                points,
            }),
            Geom::Line => Ok(Index {
                areas,
                lines: with_place(lines, alloc, class, place)?,
                points,
            }),
            Geom::Point => Ok(Index {
                areas,
                lines,
                points: with_place(points, alloc, class, place)?,
            }),
        }
    }

    /// The places of the lines for a class and a geometry. It takes no memory.
    pub fn places(&self, class: u16, geom: Geom) -> &[usize]
        ensures { result.now ≡ places_in (index_of self.now geom) class }
    {
        match geom {
            Geom::Area => places_of(&self.areas, class),
            Geom::Line => places_of(&self.lines, class),
            Geom::Point => places_of(&self.points, class),
        }
    }
}
