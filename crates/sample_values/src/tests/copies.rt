//! Copies of values that hold something of each kind.
//!
//! A copy that left out a part would show in what is counted: a cell with a node and a feature, a state with that cell,
//! and a block with an item.

ghost use Rattle.std.specs.Prelude.{◌≡◌, IfOk};
ghost use Rattle.chart_model.specs.Cell.{IsCell, IsChartHeader};

use chart_model::{
    AttrMap, Block, Cell, Coords, Feature, FileList, Foid, Geom, Header, Held, Holding, HoldingMap,
    Item, ItemList, Key, Name, NameMap, Octets, Pointers, RelatedList, Shared, State, Target,
    Vector,
};
use std::alloc::{AllocError, Global};
use std::test::Fail;

/// A cell with a node and a feature.
fn full_cell(alloc: Global, header: Header) -> Result<Cell, AllocError>
    requires { IsChartHeader header }
    ensures cell { IfOk result (λ cell. IsCell cell) }
    ensures header { IfOk result (λ cell. cell.header ≡ header) }
{
    let vector = Vector {
        version: 1,
        attrs: AttrMap::new(alloc),
        pointers: Pointers::new(alloc),
        coords: Coords::new(alloc),
    };
    let feature = Feature {
        prim: 1,
        grup: 2,
        class: 75,
        version: 1,
        foid: Foid {
            agen: 1,
            fidn: 1,
            fids: 1,
        },
        attrs: AttrMap::new(alloc),
        related: RelatedList::new(alloc),
        pointers: Pointers::new(alloc),
    };
    let mut vectors = NameMap::new(alloc);
    vectors.insert(Name { rcnm: 110, rcid: 1 }, vector)?;
    let mut features = NameMap::new(alloc);
    features.insert(Name { rcnm: 100, rcid: 1 }, feature)?;
    Ok(Cell {
        header,
        vectors,
        features,
    })
}

/// The cell as it is held, with one file.
fn full_state(alloc: Global, header: Header) -> Result<State, AllocError>
    requires { IsChartHeader header }
{
    let held = Held {
        edition: header.edition,
        update: header.update,
        cancelled: false,
    };
    let mut files = FileList::new(alloc);
    files.push(Shared::of(alloc, Octets::from_vec(Vec::new(alloc)))?)?;
    let chart = Some(full_cell(alloc, header)?);
    let mut cells = HoldingMap::new(alloc);
    cells.insert(header.key, Holding { held, files, chart })?;
    Ok(State { cells })
}

#[test]
fn full_values_are_copied(rt: HostRuntime) -> Result<(), Fail> {
    let key = Key::from_bytes(b"AA5TEST1").ok_or("a key")?;
    let header = Header {
        key,
        edition: 1,
        update: 0,
        issued: *b"20260101",
        agency: 1,
        scale: 50_000,
    };
    let cell = full_cell(rt.alloc(), header)?.copy(rt.alloc())?;
    assert_eq!(rt;
        (cell.header.scale, cell.vectors.len(), cell.features.len()),
        (50_000, 1, 1)
    );
    let state = full_state(rt.alloc(), header)?.copy(rt.alloc())?;
    assert!(rt; state.cells.contains(key));
    let mut items = ItemList::new(rt.alloc());
    let text = Octets::from_vec(Vec::from_slice(rt.alloc(), b"SY(DANGER01)")?);
    items.push(Item {
        target: Target::Edge(1),
        text,
    })?;
    let block = Block {
        priority: 4,
        geom: Geom::Point,
        items,
    };
    let copy = block.copy(rt.alloc())?;
    assert_eq!(rt; (copy.priority, copy.items.as_slice().len()), (4, 1));
    Ok(())
}
