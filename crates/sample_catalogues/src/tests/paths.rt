//! Paths that are fetched, that aren't, and that are no cell file's.
//!
//! A catalogue comes from outside, and its paths name files of the machine, so what leads out of its folder is refused.
//! Most paths are one byte beside one with another answer.

use super::lines::{Case, first_wrong, order_of};
use exchange_catalogue::OrderFault::{BadPath, Empty};
use std::alloc::{AllocError, Global};
use std::test::Fail;

static NAMES: [Case; 24] = [
    (b"BIN X.000", Ok(b"X.000")),
    (b"BIN X.999", Ok(b"X.999")),
    (b"BIN x.000", Ok(b"x.000")),
    (b"BIN  .000", Ok(b" .000")),
    (b"BIN ~.000", Ok(b"~.000")),
    (b"BIN X..000", Ok(b"X..000")),
    (b"BIN X.TXT.000", Ok(b"X.TXT.000")),
    (b"BIN CATALOG.031", Ok(b"CATALOG.031")),
    // nothing before the dot
    (b"BIN .000", Err(Empty)),
    (b"BIN X\\.000", Err(Empty)),
    // not three digits behind the last dot
    (b"BIN X000", Err(Empty)),
    (b"BIN X.00", Err(Empty)),
    (b"BIN X.0000", Err(Empty)),
    (b"BIN X.00A", Err(Empty)),
    (b"BIN X.+01", Err(Empty)),
    (b"BIN X. 01", Err(Empty)),
    (b"BIN X.000 ", Err(Empty)),
    (b"BIN X.000.TXT", Err(Empty)),
    (b"BIN X.000\\", Err(Empty)),
    (b"BIN ", Err(Empty)),
    // not binary
    (b"ASC X.000", Err(Empty)),
    (b"TXT X.000", Err(Empty)),
    (b"bin X.000", Err(Empty)),
    (b"BIM X.000", Err(Empty)),
];

static PATHS: [Case; 25] = [
    (b"BIN A\\B/C\\X.000", Ok(b"A/B/C/X.000")),
    // parts that name the folder itself, or nothing
    (b"BIN .\\X.000", Ok(b"./X.000")),
    (b"BIN A\\.\\.\\X.000", Ok(b"A/././X.000")),
    (b"BIN A\\\\X.000", Ok(b"A//X.000")),
    // two dots that aren't a part
    (b"BIN ..X.000", Ok(b"..X.000")),
    (b"BIN X..Y.000", Ok(b"X..Y.000")),
    (b"BIN ..A\\X.000", Ok(b"..A/X.000")),
    (b"BIN A..\\X.000", Ok(b"A../X.000")),
    (b"BIN A..B\\X.000", Ok(b"A..B/X.000")),
    (b"BIN ...\\X.000", Ok(b".../X.000")),
    // the folder above
    (b"BIN ..\\X.000", Err(BadPath(1))),
    (b"BIN ../X.000", Err(BadPath(1))),
    (b"BIN A\\..\\X.000", Err(BadPath(1))),
    (b"BIN A/..\\B/X.000", Err(BadPath(1))),
    (b"BIN A\\..", Err(Empty)),
    // from the root
    (b"BIN /X.000", Err(BadPath(1))),
    (b"BIN \\X.000", Err(BadPath(1))),
    (b"BIN \\\\A\\X.000", Err(BadPath(1))),
    // bytes that are no printable ASCII characters
    (b"BIN X\x00.000", Err(BadPath(1))),
    (b"BIN X\x1d.000", Err(BadPath(1))),
    (b"BIN X\x7f.000", Err(BadPath(1))),
    (b"BIN X\x80.000", Err(BadPath(1))),
    (b"BIN \xff\\X.000", Err(BadPath(1))),
    // neither is a fault where the file is no cell file
    (b"ASC ..\\X.000", Err(Empty)),
    (b"BIN ..\\README.TXT", Err(Empty)),
];

#[test]
fn names(rt: HostRuntime) -> Result<(), Fail> {
    assert_eq!(rt; first_wrong(rt.alloc(), &NAMES)?, None);
    Ok(())
}

#[test]
fn paths(rt: HostRuntime) -> Result<(), Fail> {
    assert_eq!(rt; first_wrong(rt.alloc(), &PATHS)?, None);
    Ok(())
}

/// The line of a binary file, whose path begins so and has so many bytes in all.
fn long_line(alloc: Global, start: &[u8], count: usize) -> Result<Vec<u8>, AllocError> {
    let mut line = Vec::from_slice(alloc, b"BIN ")?;
    line.extend_from_slice(start)?;
    for _ in start.len()..count.saturating_sub(4) {
        line.push(b'X')?;
    }
    line.extend_from_slice(b".000")?;
    Ok(line)
}

#[test]
fn a_path_has_255_bytes_at_most(rt: HostRuntime) -> Result<(), Fail> {
    for start in [b"".as_slice(), b"A\\", b"A/B\\C/"] {
        let longest = order_of(rt.alloc(), &long_line(rt.alloc(), start, 255)?)?;
        assert_eq!(rt; longest.map(|path| path.len()), Ok(255));
        let longer = order_of(rt.alloc(), &long_line(rt.alloc(), start, 256)?)?;
        assert_eq!(rt; longer.err(), Some(BadPath(1)));
    }
    Ok(())
}
