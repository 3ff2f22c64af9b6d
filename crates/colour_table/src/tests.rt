//! Files of colours worked out by hand from the grammar.
//!
//! Most faults are one byte beside a good line. Of two faults the first line's counts.

use super::*;
use crate::ColoursFault::{BadLine, Twice};
use std::alloc::Global;
use std::test::Fail;

/// Tokens of one and of eight bytes, the least and the greatest numbers, remarks, and no line feed at the end.
const COLOURS: &[u8] =
    b"# by day\nDEPVS 115 182 239\r\n\nZ 0 0 0\nA0Z9A0Z9 255 000000000000000255 7\n#\n0 1 2 3";

/// The tokens of these, and their colours.
static SWATCHES: [(&[u8], Colour); 4] = [
    (
        b"DEPVS",
        Colour {
            red: 115,
            green: 182,
            blue: 239,
        },
    ),
    (
        b"Z",
        Colour {
            red: 0,
            green: 0,
            blue: 0,
        },
    ),
    (
        b"A0Z9A0Z9",
        Colour {
            red: 255,
            green: 255,
            blue: 7,
        },
    ),
    (
        b"0",
        Colour {
            red: 1,
            green: 2,
            blue: 3,
        },
    ),
];

#[test]
fn colours_stand_in_the_order_of_their_lines(rt: HostRuntime) -> Result<(), Fail> {
    let colours = read_colours(rt.alloc(), COLOURS)?;
    let swatches = colours.as_slice();
    assert_eq!(rt; swatches.len(), SWATCHES.len());
    for (at, (token, colour)) in SWATCHES.iter().enumerate() {
        let swatch = swatches.get(at).ok_or("a colour")?;
        assert!(rt; swatch.token.as_slice() == *token, "case {at}");
        assert_eq!(rt; swatch.colour, *colour, "case {at}");
    }
    assert!(rt; read_colours(rt.alloc(), b"")?.as_slice().is_empty());
    assert_eq!(rt; colour_under(swatches, b"0"), SWATCHES[3].1);
    let magenta = Colour {
        red: 255,
        green: 0,
        blue: 255,
    };
    assert_eq!(rt; colour_under(swatches, b"DEPV"), magenta);
    colours_are_read();
    Ok(())
}

/// The bytes of a file of colours, and its first fault.
static FAULTS: [(&[u8], ColoursFault); 20] = [
    (b"DEPVS 115 182", BadLine(1)),
    (b"DEPVS 115 182 239 0", BadLine(1)),
    (b"DEPVS 115 182 239 ", BadLine(1)),
    (b" DEPVS 115 182 239", BadLine(1)),
    (b"DEPVS  115 182 239", BadLine(1)),
    (b"DEPVS,115,182,239", BadLine(1)),
    (b"DEPVS 256 182 239", BadLine(1)),
    (b"DEPVS 115 256 239", BadLine(1)),
    (b"DEPVS 115 182 256", BadLine(1)),
    (b"DEPVS -1 182 239", BadLine(1)),
    (b"DEPVS 0x1 182 239", BadLine(1)),
    (b"DEPVS 0000000000000000115 182 239", BadLine(1)),
    (b"DEPVS 115 182 239\r", BadLine(1)),
    (b"depvs 115 182 239", BadLine(1)),
    (b"DEP_S 115 182 239", BadLine(1)),
    (b"DEPVSDEPV 115 182 239", BadLine(1)),
    (b"\n# two\nDEPVS\n", BadLine(3)),
    (b"A 1 2 3\nB 1 2 3\nA 4 5 6\nx", Twice(3)),
    (b"A 1 2 3\nx\nA 1 2 3", BadLine(2)),
    (b"A 1 2 3\r\n\r\nA 1 2 3", Twice(3)),
];

#[test]
fn first_faults(rt: HostRuntime) {
    for (at, (bytes, fault)) in FAULTS.iter().enumerate() {
        let read = read_colours(rt.alloc(), bytes);
        assert!(rt; matches!(&read, Err(found) if found == fault), "case {at}");
    }
}

/// So many line feeds.
fn empty_lines(alloc: Global, count: usize) -> Result<Vec<u8>, Fail> {
    let mut bytes = Vec::new(alloc);
    bytes.resize(count, b'\n')?;
    Ok(bytes)
}

#[test]
fn lines_behind_the_thousandth(rt: HostRuntime) -> Result<(), Fail> {
    let mut bytes = empty_lines(rt.alloc(), 999)?;
    bytes.extend_from_slice(b"A 1 2 3\n")?;
    assert_eq!(rt; read_colours(rt.alloc(), &bytes)?.as_slice().len(), 1);
    bytes.extend_from_slice(b"\n")?;
    assert!(rt; matches!(read_colours(rt.alloc(), &bytes), Err(BadLine(1_001))));
    Ok(())
}
