//! Records at the ends of what their values may be.
//!
//! A number that is too wide or has its bytes in another order shows at the greatest and the least value. A text may
//! have any byte but the two that end a field or a subfield.

ghost use Rattle.std.specs.Prelude.{IfOk};
ghost use Rattle.chart_model.specs.Record.{AreCoords};

use cell_writer::write_cell;
use chart_model::{Coord, Coords, Name, Sequence, UpdateRecord};
use sample_rows::{Row, chart, vector};
use std::alloc::{AllocError, Global};
use std::test::Fail;
use update_apply::apply_record;

/// The bytes of the data descriptive record, and those of the records of general information and of parameters.
const BEFORE: usize = 1761 + 161 + 82;

/// Every byte but those that end a field or a subfield.
const EVERY_BYTE: [u8; 254] =
    *b"\x00\x01\x02\x03\x04\x05\x06\x07\x08\x09\x0a\x0b\x0c\x0d\x0e\x0f\x10\x11\x12\x13\x14\x15\x16\x17\x18\x19\x1a\
    \x1b\x1c\x1d !\"#$%&'()*+,-./0123456789:;<=>?@ABCDEFGHIJKLMNOPQRSTUVWXYZ[\\]^_`abcdefghijklmnopqrstuvwxyz{|}\
    ~\x7f\x80\x81\x82\x83\x84\x85\x86\x87\x88\x89\x8a\x8b\x8c\x8d\x8e\x8f\x90\x91\x92\x93\x94\x95\x96\x97\x98\
    \x99\x9a\x9b\x9c\x9d\x9e\x9f\xa0\xa1\xa2\xa3\xa4\xa5\xa6\xa7\xa8\xa9\xaa\xab\xac\xad\xae\xaf\xb0\xb1\xb2\xb3\
    \xb4\xb5\xb6\xb7\xb8\xb9\xba\xbb\xbc\xbd\xbe\xbf\xc0\xc1\xc2\xc3\xc4\xc5\xc6\xc7\xc8\xc9\xca\xcb\xcc\xcd\xce\
    \xcf\xd0\xd1\xd2\xd3\xd4\xd5\xd6\xd7\xd8\xd9\xda\xdb\xdc\xdd\xde\xdf\xe0\xe1\xe2\xe3\xe4\xe5\xe6\xe7\xe8\xe9\
    \xea\xeb\xec\xed\xee\xef\xf0\xf1\xf2\xf3\xf4\xf5\xf6\xf7\xf8\xf9\xfa\xfb\xfc\xfd\xfe\xff";

/// The corner of the globe at the greatest longitude and latitude, and that at the least.
fn corners(alloc: Global) -> Result<Coords, AllocError>
    ensures { IfOk result AreCoords }
{
    let mut coords = Sequence::new(alloc);
    coords.push(Coord {
        x: 1_800_000_000,
        y: 900_000_000,
        z: None,
    })?;
    coords.push(Coord {
        x: -1_800_000_000,
        y: -900_000_000,
        z: None,
    })?;
    Ok(coords)
}

/// The insertion of the edge with the greatest number, through those corners.
fn edge(alloc: Global) -> Result<UpdateRecord, AllocError> {
    Ok(UpdateRecord {
        target: Name {
            rcnm: 130,
            rcid: u32::MAX,
        },
        ruin: 1,
        version: 1,
        prim: 0,
        grup: 0,
        class: 0,
        foid: None,
        attrs: Sequence::new(alloc),
        pointer_edit: None,
        pointers: Sequence::new(alloc),
        coord_edit: None,
        coords: corners(alloc)?,
        related_edit: None,
        related: Sequence::new(alloc),
    })
}

#[test]
fn the_corners_of_the_globe(rt: HostRuntime) -> Result<(), Fail> {
    let mut cell = chart(rt.alloc(), &[])?;
    apply_record(rt.alloc(), &mut cell, &edge(rt.alloc())?)?;
    let file = write_cell(rt.alloc(), &cell)?;
    let (_, written) = file.as_slice().split_at_checked(BEFORE).ok_or("a record")?;
    let expected = b"00096 D     00067   5504000100003000\
        00VRID0000900003SG2D0001700012\x1e\x03\0\x1e\x82\xff\xff\xff\xff\x01\0\x01\x1e\
        \x00\xe9\xa4\x35\x00\xd2\x49\x6b\x00\x17\x5b\xca\x00\x2e\xb6\x94\x1e";
    assert!(rt; written == expected.as_slice());
    Ok(())
}

#[test]
fn an_attribute_of_every_byte(rt: HostRuntime) -> Result<(), Fail> {
    let row = Row {
        attrs: &[(65_535, &EVERY_BYTE)],
        ..vector!(110, 0, [], [])
    };
    let file = write_cell(rt.alloc(), &chart(rt.alloc(), &[row])?)?;
    let (_, written) = file.as_slice().split_at_checked(BEFORE).ok_or("a record")?;
    let (front, text) = written.split_at_checked(81).ok_or("a text")?;
    let expected = b"00337 D     00067   5504000100003000\
        00VRID0000900003ATTV0025800012\x1e\x03\0\x1en\0\0\0\0\x01\0\x01\x1e\xff\xff";
    assert!(rt; front == expected.as_slice());
    let (bytes, ends) = text.split_at_checked(254).ok_or("a text")?;
    assert!(rt; bytes == EVERY_BYTE.as_slice());
    assert!(rt; ends == b"\x1f\x1e".as_slice());
    Ok(())
}
