//! Symbols by the names that the procedures call.

use super::*;
use chart_model::{Octets, Sequence};
use colour_table::{Colour, ColourTable, Swatch};
use std::alloc::{AllocError, Global};
use std::test::Fail;

const BLACK: Colour = Colour {
    red: 0,
    green: 0,
    blue: 0,
};

/// Two colours: of the digits up to the safety depth, and of wrecks.
fn colours(alloc: Global) -> Result<ColourTable, AllocError> {
    let mut colours = Sequence::new(alloc);
    for token in [b"SNDG2", b"CHBLK"] {
        colours.push(Swatch {
            token: Octets::from_slice(alloc, token)?,
            colour: BLACK,
        })?;
    }
    Ok(colours)
}

#[test]
fn paths_and_colours(rt: HostRuntime) -> Result<(), Fail> {
    let colours = colours(rt.alloc())?;
    symbols_are_sound();
    let symbols = symbols(rt.alloc(), colours.as_slice())?;
    let shallow = symbols.get(b"SOUNDS57").ok_or("a symbol")?;
    assert!(rt; shallow.path.get().as_slice() == b"m1,-1h4l-3,8".as_slice());
    assert_eq!(rt; shallow.colour, BLACK);
    let deep = symbols.get(b"SOUNDG57").ok_or("a symbol")?;
    assert!(rt; deep.path.get().as_slice() == shallow.path.get().as_slice());
    assert!(rt; deep.colour != BLACK);
    let wreck = symbols.get(b"WRECKS04").ok_or("a symbol")?;
    assert!(rt; wreck.path.get().as_slice() == b"m-9,0h18m-14,-3v6m5,-9v12m5,-9v6".as_slice());
    assert_eq!(rt; wreck.colour, BLACK);
    for name in [b"".as_slice(), b"WRECKS0", b"WRECKS045", b"wrecks04"] {
        assert!(rt; symbols.get(name).is_none());
    }
    Ok(())
}
