//! Documents of drawings.

use chart_model::{Block, Cell, Geom, Item, ItemList, Octets, Sequence, Shared, Target};
use chart_svg::{Chart, Look, View, elements_of, escaped_text_is_quiet, print_document};
use chart_symbols::{Symbol, SymbolMap, symbols};
use colour_table::{Colour, ColourTable, NamedMap, Swatch, colours_by_token};
use draw_list::{DrawList, Drawn};
use sample_rows::{Row, chart, feature, name, vector};
use std::alloc::{AllocError, Global};
use std::test::Fail;

/// An area whose hole has a masked border, a point, and a line.
pub static CHART: [Row; 8] = [
    vector!(120, 1, [], [(10, 10, 0)]),
    vector!(120, 2, [], [(20, 20, 0)]),
    vector!(110, 3, [], [(50, 60, 0)]),
    vector!(
        130,
        1,
        [(120, 1, 1), (120, 1, 2)],
        [(10, 90, 0), (90, 90, 0), (90, 10, 0)],
    ),
    vector!(
        130,
        2,
        [(120, 2, 1), (120, 2, 2)],
        [(20, 40, 0), (40, 40, 0), (40, 20, 0)],
    ),
    Row {
        marks: &[(1, 255), (2, 1)],
        ..feature!(3, 7, [(130, 1, 1), (130, 2, 1)])
    },
    feature!(1, 8, [(110, 3, 255)]),
    feature!(2, 9, [(130, 1, 1)]),
];

/// The number of a feature, and its items.
type Items = (u32, &'static [(Target, &'static [u8])]);

static DRAWING: [Items; 2] = [
    (
        7,
        &[
            (Target::Whole, b"AC(DEPVS)"),
            (Target::Whole, b"AP(DIAMOND1)"),
            (Target::Whole, b"LS(DASH,2,CHGRF)"),
            (Target::Edge(2), b"LS(SOLID,1,DEPSC)"),
            (Target::Whole, b"SY(INFORM01)"),
        ],
    ),
    (
        8,
        &[
            (Target::Whole, b"SY(WRECKS05)"),
            (Target::At(30, 40), b"SY(<&\"\xE9\x01>)"),
        ],
    ),
];

static DOCUMENT: &[u8] = b"<?xml version=\"1.0\" encoding=\"UTF-8\"?>
<svg xmlns=\"http://www.w3.org/2000/svg\" version=\"1.1\" fill=\"none\" viewBox=\"0 0 1000 1000\">
<title>Not for navigation</title>
<defs><pattern id=\"hatching\" width=\"8\" height=\"8\" patternUnits=\"userSpaceOnUse\"><path d=\"M0,8L8,0\" stroke=\"gray\"/></pattern></defs>
<path data-cell=\"AA5TEST1\" data-feature=\"7\" data-instruction=\"AC(DEPVS)\" d=\"M100,900L100,100L900,100L900,900ZM200,800L200,600L400,600L400,800Z\" fill-rule=\"evenodd\" fill=\"#73b6ef\"/>
<path data-cell=\"AA5TEST1\" data-feature=\"7\" data-instruction=\"AP(DIAMOND1)\" d=\"M100,900L100,100L900,100L900,900ZM200,800L200,600L400,600L400,800Z\" fill-rule=\"evenodd\" fill=\"url(#hatching)\"/>
<path data-cell=\"AA5TEST1\" data-feature=\"7\" data-instruction=\"LS(DASH,2,CHGRF)\" d=\"M100,900L100,100L900,100L900,900L100,900\" stroke=\"#ff00ff\" stroke-width=\"2\" stroke-dasharray=\"6,4\"/>
<path data-cell=\"AA5TEST1\" data-feature=\"7\" data-instruction=\"LS(SOLID,1,DEPSC)\" d=\"M200,800L200,600L400,600L400,800L200,800\" stroke=\"#525a5c\" stroke-width=\"1\"/>
<path data-cell=\"AA5TEST1\" data-feature=\"7\" data-instruction=\"SY(INFORM01)\" d=\"M500,500m-3,-3l6,0l0,6l-6,0z\" stroke=\"black\"><title>SY(INFORM01)</title></path>
<path data-cell=\"AA5TEST1\" data-feature=\"8\" data-instruction=\"SY(WRECKS05)\" d=\"M500,400m-4,0l8,0\" stroke=\"#000000\"/>
<path data-cell=\"AA5TEST1\" data-feature=\"8\" data-instruction=\"SY(&#60;&#38;&#34;&#233;&#9217;&#62;)\" d=\"M300,600m-3,-3l6,0l0,6l-6,0z\" stroke=\"black\"><title>SY(&#60;&#38;&#34;&#233;&#9217;&#62;)</title></path>
</svg>
";

fn swatch(alloc: Global, token: &[u8], red: u8, green: u8, blue: u8) -> Result<Swatch, AllocError> {
    Ok(Swatch {
        token: Octets::from_slice(alloc, token)?,
        colour: Colour { red, green, blue },
    })
}

/// Two colours, and the first of them again.
fn colours(alloc: Global) -> Result<ColourTable, AllocError> {
    let mut colours = ColourTable::new(alloc);
    colours.push(swatch(alloc, b"DEPVS", 115, 182, 239)?)?;
    colours.push(swatch(alloc, b"DEPSC", 82, 90, 92)?)?;
    colours.push(swatch(alloc, b"DEPVS", 1, 2, 3)?)?;
    Ok(colours)
}

/// A symbol of a path.
fn symbol(alloc: Global, path: &[u8]) -> Result<Symbol, AllocError> {
    let path = Shared::of(alloc, Octets::from_slice(alloc, path)?)?;
    let colour = Colour {
        red: 0,
        green: 0,
        blue: 0,
    };
    Ok(Symbol { path, colour })
}

/// One symbol, and another of the same name.
fn wrecks(alloc: Global) -> Result<SymbolMap, AllocError> {
    let mut named = Sequence::new(alloc);
    for path in [b"m-4,0l8,0", b"m-3,0l6,0"] {
        let name = Octets::from_slice(alloc, b"WRECKS05")?;
        named.push((name, symbol(alloc, path)?))?;
    }
    NamedMap::of(alloc, named)
}

/// Two colours and one symbol: the first under each name.
pub fn look(alloc: Global) -> Result<Look, AllocError> {
    Ok(Look {
        colours: colours_by_token(alloc, colours(alloc)?.as_slice())?,
        symbols: wrecks(alloc)?,
    })
}

fn block(alloc: Global, items: &[(Target, &'static [u8])]) -> Result<Block, AllocError> {
    let mut list = ItemList::new(alloc);
    for (target, text) in items {
        list.push(Item {
            target: *target,
            text: Octets::from_slice(alloc, text)?,
        })?;
    }
    Ok(Block {
        priority: 1,
        geom: Geom::Area,
        items: list,
    })
}

fn drawing(alloc: Global, rows: &[Items]) -> Result<DrawList, AllocError> {
    let mut drawing = DrawList::new(alloc);
    for (rcid, items) in rows {
        drawing.push(Drawn {
            rcid: *rcid,
            block: block(alloc, items)?,
        })?;
    }
    Ok(drawing)
}

/// A cell under its own key, with a drawing.
pub fn charted(cell: &Cell, drawing: DrawList) -> Chart<'_> {
    Chart {
        key: cell.header.key,
        cell,
        drawing,
    }
}

#[test]
fn documents(rt: HostRuntime) -> Result<(), Fail> {
    escaped_text_is_quiet();
    let alloc = rt.alloc();
    let cell = chart(alloc, &CHART)?;
    let drawing = drawing(alloc, &DRAWING)?;
    let view = View::new(0, 0, 100, 100, 1_000).ok_or("a view")?;
    let look = look(alloc)?;
    let charts = [charted(&cell, drawing)];
    let elements = elements_of(alloc, &view, &look, &charts, None)?;
    let document = print_document(alloc, &view, &elements)?;
    assert!(rt; document.as_slice() == DOCUMENT);
    Ok(())
}

/// A chart of a single point.
static POINT: [Row; 2] = [
    vector!(110, 1, [], [(5, 5, 0)]),
    feature!(1, 8, [(110, 1, 255)]),
];

/// The point, and two corners of the globe.
static CORNERS: [Items; 1] = [(
    8,
    &[
        (Target::Whole, b"SY(WRECKS05)"),
        (Target::At(1_800_000_000, 900_000_000), b"SY(WRECKS05)"),
        (Target::At(-1_800_000_000, -900_000_000), b"SY(WRECKS05)"),
    ],
)];

static CORNERS_ELEMENTS: &[u8] = b"</pattern></defs>
<path data-cell=\"AA5TEST1\" data-feature=\"8\" data-instruction=\"SY(WRECKS05)\" d=\"M1800,899m-4,0l8,0\" stroke=\"#000000\"/>
<path data-cell=\"AA5TEST1\" data-feature=\"8\" data-instruction=\"SY(WRECKS05)\" d=\"M3600,0m-4,0l8,0\" stroke=\"#000000\"/>
<path data-cell=\"AA5TEST1\" data-feature=\"8\" data-instruction=\"SY(WRECKS05)\" d=\"M0,1800m-4,0l8,0\" stroke=\"#000000\"/>
</svg>
";

/// The document of a drawing, which the view shows.
fn document(
    alloc: Global,
    rows: &[Row],
    items: &[Items],
    view: &View,
    look: &Look,
) -> Result<Octets, Fail> {
    let cell = chart(alloc, rows)?;
    let drawing = drawing(alloc, items)?;
    let charts = [charted(&cell, drawing)];
    let elements = elements_of(alloc, view, look, &charts, None)?;
    Ok(print_document(alloc, view, &elements)?)
}

#[test]
fn corners(rt: HostRuntime) -> Result<(), Fail> {
    let alloc = rt.alloc();
    let (west, south) = (-1_800_000_000, -900_000_000);
    let view = View::new(west, south, -west, -south, 3_600).ok_or("a view")?;
    let look = look(alloc)?;
    let text = document(alloc, &POINT, &CORNERS, &view, &look)?;
    assert!(rt; text.as_slice().ends_with(CORNERS_ELEMENTS));
    // where no feature is shown, or there is none, nothing is drawn
    let nothing = b"</pattern></defs>\n</svg>\n".as_slice();
    let hidden = document(alloc, &POINT, &[], &view, &look)?;
    assert!(rt; hidden.as_slice().ends_with(nothing));
    let bare = document(alloc, &[], &[], &view, &look)?;
    assert!(rt; bare.as_slice().ends_with(nothing));
    Ok(())
}

/// A line of three edges, of which the data limit cuts one and another is masked.
static LINE: [Row; 5] = [
    vector!(120, 1, [], [(10, 10, 0)]),
    vector!(130, 1, [(120, 1, 1), (120, 1, 2)], [(10, 20, 0)]),
    vector!(130, 2, [(120, 1, 1), (120, 1, 2)], [(20, 10, 0)]),
    vector!(130, 3, [(120, 1, 1), (120, 1, 2)], [(30, 30, 0)]),
    Row {
        marks: &[(3, 255), (255, 1), (255, 2)],
        ..feature!(2, 9, [(130, 1, 1), (130, 2, 1), (130, 3, 2)])
    },
];

/// The line, a sounding of 12.7 m at a place, and an instruction that isn't known.
static SOUNDING: [Items; 1] = [(
    9,
    &[
        (Target::Whole, b"LS(DOTT,1,CSTLN)"),
        (Target::At(50, 60), b"SY(SOUNDS11)"),
        (Target::At(50, 60), b"SY(SOUNDS02)"),
        (Target::At(50, 60), b"SY(SOUNDG57)"),
        (Target::Whole, b"TX(OBJNAM)"),
    ],
)];

static SOUNDING_ELEMENTS: &[u8] = b"</pattern></defs>
<path data-cell=\"AA5TEST1\" data-feature=\"9\" data-instruction=\"LS(DOTT,1,CSTLN)\" d=\"M100,900L300,700L100,900\" stroke=\"#ff00ff\" stroke-width=\"1\" stroke-dasharray=\"1,3\"/>
<path data-cell=\"AA5TEST1\" data-feature=\"9\" data-instruction=\"SY(SOUNDS11)\" d=\"M500,400m-5,-4m1,1l2,-1v8\" stroke=\"#ff00ff\"/>
<path data-cell=\"AA5TEST1\" data-feature=\"9\" data-instruction=\"SY(SOUNDS02)\" d=\"M500,400m1,-4m0,2a2,2,0,0,1,4,0c0,2,-3,3,-4,6h4\" stroke=\"#ff00ff\"/>
<path data-cell=\"AA5TEST1\" data-feature=\"9\" data-instruction=\"SY(SOUNDG57)\" d=\"M500,400m1,-1h4l-3,8\" stroke=\"#ff00ff\"/>
<path data-cell=\"AA5TEST1\" data-feature=\"9\" data-instruction=\"TX(OBJNAM)\" d=\"M100,800m-3,-3l6,0l0,6l-6,0z\" stroke=\"black\"><title>TX(OBJNAM)</title></path>
</svg>
";

/// Digits stand in their cells, and hidden edges aren't drawn. What has no symbol is a box, on the first edge, be it
/// hidden or not.
#[test]
fn digits_and_hidden_edges(rt: HostRuntime) -> Result<(), Fail> {
    let alloc = rt.alloc();
    let view = View::new(0, 0, 100, 100, 1_000).ok_or("a view")?;
    let look = Look {
        colours: colours_by_token(alloc, &[])?,
        symbols: symbols(alloc, &[])?,
    };
    let text = document(alloc, &LINE, &SOUNDING, &view, &look)?;
    assert!(rt; text.as_slice().ends_with(SOUNDING_ELEMENTS));
    Ok(())
}
