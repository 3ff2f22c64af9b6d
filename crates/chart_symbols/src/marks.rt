//! The symbols of hazards, of what dries, and of what is unknown.

ghost use Rattle.std.specs.Prelude.{◌≡◌, ◌++◌, map, IfOk, OnOk};
ghost use Rattle.chart_symbols.specs.Marks.{mark_symbol};

use crate::symbol::{Symbol, SymbolList};
use chart_model::{Octets, Shared};
use colour_table::{Swatch, colour_under};
use std::alloc::{AllocError, Global};

/// The symbols other than digits: the name, the path and the token of the colour of each. Rings of dots go round what
/// is under the water.
pub(crate) static MARKS: [([u8; 8], &[u8], &[u8]); 13] = [
    // what dries: a line below the digit of place 1
    (*b"SOUNDSA1", b"m-6,6h6", b"SNDG2"),
    (*b"SOUNDGA1", b"m-6,6h6", b"SNDG1"),
    // an isolated danger: a crossed circle
    (
        *b"ISODGR01",
        b"m-8,0a8,8,0,1,0,16,0a8,8,0,1,0,-16,0m3,-5l10,10m0,-10l-10,10",
        b"ISDNG",
    ),
    // a hazard whose depth stands in the oval
    (
        *b"DANGER01",
        b"m15,-1v2m-1,2l-1,2m-2,2l-1,1m-3,1l-2,1m-4,0h-2m-4,0l-2,-1m-3,-1l-1,-1m-2,-2l-1,-2\
            m-1,-2v-2m1,-2l1,-2m2,-2l1,-1m3,-1l2,-1m4,0h2m4,0l2,1m3,1l1,1m2,2l1,2",
        b"CHBLK",
    ),
    (
        *b"DANGER02",
        b"m15,-1v2m-1,2l-1,2m-2,2l-1,1m-3,1l-2,1m-4,0h-2m-4,0l-2,-1m-3,-1l-1,-1m-2,-2l-1,-2\
            m-1,-2v-2m1,-2l1,-2m2,-2l1,-1m3,-1l2,-1m4,0h2m4,0l2,1m3,1l1,1m2,2l1,2",
        b"CHGRD",
    ),
    // a wreck of which a part stands out of the water: a hull with its mast
    (
        *b"WRECKS01",
        b"m-9,4h18m-14,0l-2,-6l11,4l1,2m-6,-4l3,-8",
        b"CHBLK",
    ),
    // a wreck that isn't dangerous, and one that is
    (*b"WRECKS04", b"m-9,0h18m-14,-3v6m5,-9v12m5,-9v6", b"CHBLK"),
    (
        *b"WRECKS05",
        b"m-9,0h18m-14,-3v6m5,-9v12m5,-9v6m10,-4v2m-1,2l-1,2m-2,2l-1,1m-3,1l-2,1m-4,0h-2m-4,0l-2,-1\
            m-3,-1l-1,-1m-2,-2l-1,-2m-1,-2v-2m1,-2l1,-2m2,-2l1,-1m3,-1l2,-1m4,0h2m4,0l2,1m3,1l1,1m2,2l1,2",
        b"CHBLK",
    ),
    // a rock under the water, and one that the water covers and uncovers
    (
        *b"UWTROC03",
        b"m-5,0h10m-5,-5v10m10,-6v2m-1,3l-1,2m-2,2l-2,1m-3,1h-2m-3,-1l-2,-1m-2,-2l-1,-2\
            m-1,-3v-2m1,-3l1,-2m2,-2l2,-1m3,-1h2m3,1l2,1m2,2l1,2",
        b"CHBLK",
    ),
    (*b"UWTROC04", b"m0,-6v12m-5,-9l10,6m0,-6l-10,6", b"CHBLK"),
    // the same of an obstruction
    (
        *b"OBSTRN01",
        b"m-4,-4l8,8m0,-8l-8,8m14,-5v2m-1,3l-1,2m-2,2l-2,1m-3,1h-2m-3,-1l-2,-1m-2,-2l-1,-2\
            m-1,-3v-2m1,-3l1,-2m2,-2l2,-1m3,-1h2m3,1l2,1m2,2l1,2",
        b"CHBLK",
    ),
    (
        *b"OBSTRN03",
        b"m-5,0h10m5,-1v2m-1,3l-1,2m-2,2l-2,1m-3,1h-2m-3,-1l-2,-1m-2,-2l-1,-2\
            m-1,-3v-2m1,-3l1,-2m2,-2l2,-1m3,-1h2m3,1l2,1m2,2l1,2",
        b"CHBLK",
    ),
    // an object of which the table says nothing
    (
        *b"QUESMRK1",
        b"m-4,-4c0,-5,8,-5,8,0c0,3,-4,3,-4,7m0,3v1",
        b"CHMGD",
    ),
];

/// This name, and the symbol of this path in the colour under a token.
#[tactic(auto, unfolding(crate::specs::Marks::mark_symbol))]
fn mark_symbol(
    alloc: Global,
    colours: &[Swatch],
    name: &[u8],
    path: &[u8],
    token: &[u8],
) -> Result<(Octets, Symbol), AllocError>
    ensures { IfOk result (λ named. named ≡ mark_symbol colours.now name.now path.now token.now) }
{
    let name = Octets::from_slice(alloc, name)?;
    let path = Shared::of(alloc, Octets::from_slice(alloc, path)?)?;
    let colour = colour_under(colours, token);
    Ok((name, Symbol { path, colour }))
}

/// Adds symbols of these names, paths and tokens.
pub(crate) fn push_marks(
    alloc: Global,
    symbols: &mut SymbolList,
    colours: &[Swatch],
    marks: &[([u8; 8], &[u8], &[u8])],
) -> Result<(), AllocError>
    ensures { OnOk result (symbols.new ≡ symbols.old
        ++ map (λ mark. mark_symbol colours.now mark.0 mark.1.now mark.2.now) marks.now) }
{
    for (name, path, token) in marks {
        symbols.push(mark_symbol(alloc, colours, name, path, token)?)?;
    }
    Ok(())
}
