//! Attributes, pointers, coordinates and related objects: fields of three groups each, with the
//! labels as the standard has them, and turned round.
//!
//! A file says by its descriptor in which order subfields stand, and a reader that went by the standard's order would
//! read the second file wrong. The second group shows where the first one ends, and the third that none is left out.

use super::read;
use chart_model::{Coord, Foid, Name, Pointer, Related};
use s57_fields::{read_attf, read_attv, read_ffpt, read_fspt, read_sg2d, read_sg3d, read_vrpt};
use s57_subfields::tags::{ATTF, ATTV, FFPT, FSPT, SG2D, SG3D, VRPT};
use std::test::Fail;

fn coord(y: i32, x: i32, z: Option<i32>) -> Coord {
    Coord { x, y, z }
}

fn pointer(rcnm: u8, rcid: u32, said: [u8; 4]) -> Pointer {
    Pointer {
        target: Name { rcnm, rcid },
        ornt: said[0],
        usag: said[1],
        topi: said[2],
        mask: said[3],
    }
}

fn related(agen: u16, fidn: u32, fids: u16, rind: u8) -> Related {
    Related {
        foid: Foid { agen, fidn, fids },
        rind,
    }
}

#[test]
fn coordinates_have_signs(rt: HostRuntime) -> Result<(), Fail> {
    let plain = b"00060 L   0900032   21 4SG2D280\x1e\
        0000;&   \x1f*YCOO!XCOO\x1f(2b24)\x1e\
        00057 D     00032   21 4SG2D250\x1e\
        \xff\xff\xff\xff\0.\xb6\x94\
        \0\xe9\xa45\0\xd2Ik\
        \x01\0\0\0\x02\0\0\0\
        \x1e";
    let turned_round = b"00060 L   0900032   21 4SG2D280\x1e\
        0000;&   \x1f*XCOO!YCOO\x1f(2b24)\x1e\
        00057 D     00032   21 4SG2D250\x1e\
        \0.\xb6\x94\xff\xff\xff\xff\
        \0\xd2Ik\0\xe9\xa45\
        \x02\0\0\0\x01\0\0\0\
        \x1e";
    let corners = [
        coord(-1, -1_800_000_000, None),
        coord(900_000_000, 1_800_000_000, None),
        coord(1, 2, None),
    ];
    for bytes in [plain.as_slice(), turned_round.as_slice()] {
        let file = read(rt.alloc(), bytes, SG2D)?;
        assert_eq!(rt;
            read_sg2d(rt.alloc(), &file, 1)?.as_slice(),
            corners.as_slice()
        );
    }
    Ok(())
}

#[test]
fn soundings_are_in_centimetres(rt: HostRuntime) -> Result<(), Fail> {
    let plain = b"00065 L   0900032   21 4SG3D330\x1e\
        0000;&   \x1f*YCOO!XCOO!VE3D\x1f(3b24)\x1e\
        00069 D     00032   21 4SG3D370\x1e\
        \x01\0\0\0\x02\0\0\0\xf4\xff\xff\xff\
        \x03\0\0\0\x04\0\0\0?B\x0f\0\
        \xff\xff\xff\xff\xfe\xff\xff\xff\0\0\0\0\
        \x1e";
    let turned_round = b"00065 L   0900032   21 4SG3D330\x1e\
        0000;&   \x1f*VE3D!YCOO!XCOO\x1f(3b24)\x1e\
        00069 D     00032   21 4SG3D370\x1e\
        \xf4\xff\xff\xff\x01\0\0\0\x02\0\0\0\
        ?B\x0f\0\x03\0\0\0\x04\0\0\0\
        \0\0\0\0\xff\xff\xff\xff\xfe\xff\xff\xff\
        \x1e";
    let soundings = [
        coord(1, 2, Some(-120)),
        coord(3, 4, Some(9_999_990)),
        coord(-1, -2, Some(0)),
    ];
    for bytes in [plain.as_slice(), turned_round.as_slice()] {
        let file = read(rt.alloc(), bytes, SG3D)?;
        assert_eq!(rt;
            read_sg3d(rt.alloc(), &file, 1)?.as_slice(),
            soundings.as_slice()
        );
    }
    Ok(())
}

#[test]
fn attributes_of_a_vector_record(rt: HostRuntime) -> Result<(), Fail> {
    let plain = b"00061 L   0900032   21 4ATTV290\x1e\
        0000;&   \x1f*ATTL!ATVL\x1f(b12,A)\x1e\
        00045 D     00032   21 4ATTV130\x1e\
        \x92\x014\x1f\
        X\0\x1f\
        \x01\0ab\x1f\
        \x1e";
    let turned_round = b"00061 L   0900032   21 4ATTV290\x1e\
        0000;&   \x1f*ATVL!ATTL\x1f(A,b12)\x1e\
        00045 D     00032   21 4ATTV130\x1e\
        4\x1f\x92\x01\
        \x1fX\0\
        ab\x1f\x01\0\
        \x1e";
    for bytes in [plain.as_slice(), turned_round.as_slice()] {
        let file = read(rt.alloc(), bytes, ATTV)?;
        let attrs = read_attv(rt.alloc(), &file, 1)?;
        let [first, second, third] = attrs.as_slice() else {
            return Err("three attributes".into());
        };
        assert_eq!(rt; first.code, 402);
        assert_eq!(rt; first.value.as_slice(), b"4".as_slice());
        assert_eq!(rt; second.code, 88);
        assert_eq!(rt; second.value.as_slice(), b"".as_slice());
        assert_eq!(rt; third.code, 1);
        assert_eq!(rt; third.value.as_slice(), b"ab".as_slice());
    }
    Ok(())
}

#[test]
fn attribute_of_unknown_value(rt: HostRuntime) -> Result<(), Fail> {
    let plain = b"00061 L   0900032   21 4ATTF290\x1e\
        0000;&   \x1f*ATTL!ATVL\x1f(b12,A)\x1e\
        00046 D     00032   21 4ATTF140\x1e\
        W\05\x1f\
        X\0\x1f\
        Y\01,2\x1f\
        \x1e";
    let turned_round = b"00061 L   0900032   21 4ATTF290\x1e\
        0000;&   \x1f*ATVL!ATTL\x1f(A,b12)\x1e\
        00046 D     00032   21 4ATTF140\x1e\
        5\x1fW\0\
        \x1fX\0\
        1,2\x1fY\0\
        \x1e";
    for bytes in [plain.as_slice(), turned_round.as_slice()] {
        let file = read(rt.alloc(), bytes, ATTF)?;
        let attrs = read_attf(rt.alloc(), &file, 1)?;
        let [first, second, third] = attrs.as_slice() else {
            return Err("three attributes".into());
        };
        assert_eq!(rt; first.code, 87);
        assert_eq!(rt; first.value.as_slice(), b"5".as_slice());
        assert_eq!(rt; second.code, 88);
        assert_eq!(rt; second.value.as_slice(), b"".as_slice());
        assert_eq!(rt; third.code, 89);
        assert_eq!(rt; third.value.as_slice(), b"1,2".as_slice());
    }
    Ok(())
}

#[test]
fn pointers_of_a_vector_record(rt: HostRuntime) -> Result<(), Fail> {
    let plain = b"00081 L   0900032   21 4VRPT490\x1e\
        0000;&   \x1f*NAME!ORNT!USAG!TOPI!MASK\x1f(B(40),4b11)\x1e\
        00060 D     00032   21 4VRPT280\x1e\
        x\x07\0\0\x01\xff\xff\x01\x02\
        x\x08\0\0\0\xff\xff\x02\x01\
        n\t\0\0\0\x01\x02\xff\xff\
        \x1e";
    let turned_round = b"00081 L   0900032   21 4VRPT490\x1e\
        0000;&   \x1f*MASK!TOPI!USAG!ORNT!NAME\x1f(4b11,B(40))\x1e\
        00060 D     00032   21 4VRPT280\x1e\
        \x02\x01\xff\xffx\x07\0\0\x01\
        \x01\x02\xff\xffx\x08\0\0\0\
        \xff\xff\x02\x01n\t\0\0\0\
        \x1e";
    let pointers = [
        pointer(120, 16_777_223, [255, 255, 1, 2]),
        pointer(120, 8, [255, 255, 2, 1]),
        pointer(110, 9, [1, 2, 255, 255]),
    ];
    for bytes in [plain.as_slice(), turned_round.as_slice()] {
        let file = read(rt.alloc(), bytes, VRPT)?;
        assert_eq!(rt;
            read_vrpt(rt.alloc(), &file, 1)?.as_slice(),
            pointers.as_slice()
        );
    }
    Ok(())
}

#[test]
fn pointers_of_a_feature(rt: HostRuntime) -> Result<(), Fail> {
    let plain = b"00076 L   0900032   21 4FSPT440\x1e\
        0000;&   \x1f*NAME!ORNT!USAG!MASK\x1f(B(40),3b11)\x1e\
        00057 D     00032   21 4FSPT250\x1e\
        \x82\x07\0\0\0\x02\x01\xff\
        \x82\x08\0\0\0\x01\x02\x02\
        n\t\0\0\0\xff\xff\x01\
        \x1e";
    let turned_round = b"00080 L   0900032   21 4FSPT480\x1e\
        0000;&   \x1f*USAG!NAME!MASK!ORNT\x1f(b11,B(40),2b11)\x1e\
        00057 D     00032   21 4FSPT250\x1e\
        \x01\x82\x07\0\0\0\xff\x02\
        \x02\x82\x08\0\0\0\x02\x01\
        \xffn\t\0\0\0\x01\xff\
        \x1e";
    let pointers = [
        pointer(130, 7, [2, 1, 255, 255]),
        pointer(130, 8, [1, 2, 255, 2]),
        pointer(110, 9, [255, 255, 255, 1]),
    ];
    for bytes in [plain.as_slice(), turned_round.as_slice()] {
        let file = read(rt.alloc(), bytes, FSPT)?;
        assert_eq!(rt;
            read_fspt(rt.alloc(), &file, 1)?.as_slice(),
            pointers.as_slice()
        );
    }
    Ok(())
}

#[test]
fn related_objects_of_a_feature(rt: HostRuntime) -> Result<(), Fail> {
    let plain = b"00072 L   0900032   21 4FFPT400\x1e\
        0000;&   \x1f*LNAM!RIND!COMT\x1f(B(64),b11,A)\x1e\
        00065 D     00032   21 4FFPT330\x1e\
        &\x02\x07\0\0\0\x01\0\x02\x1f\
        &\x02\x08\0\0\0\x02\0\x01ab\x1f\
        '\x02\t\0\0\0\x03\0\x03\x1f\
        \x1e";
    let turned_round = b"00072 L   0900032   21 4FFPT400\x1e\
        0000;&   \x1f*COMT!RIND!LNAM\x1f(A,b11,B(64))\x1e\
        00065 D     00032   21 4FFPT330\x1e\
        \x1f\x02&\x02\x07\0\0\0\x01\0\
        ab\x1f\x01&\x02\x08\0\0\0\x02\0\
        \x1f\x03'\x02\t\0\0\0\x03\0\
        \x1e";
    let slaves = [
        related(550, 7, 1, 2),
        related(550, 8, 2, 1),
        related(551, 9, 3, 3),
    ];
    for bytes in [plain.as_slice(), turned_round.as_slice()] {
        let file = read(rt.alloc(), bytes, FFPT)?;
        assert_eq!(rt;
            read_ffpt(rt.alloc(), &file, 1)?.as_slice(),
            slaves.as_slice()
        );
    }
    Ok(())
}

#[test]
fn groups_behind_a_value_that_stands_once(rt: HostRuntime) -> Result<(), Fail> {
    let bytes = b"00069 L   0900032   21 4SG2D370\x1e\
        0000;&   \x1fNUMB!*XCOO!YCOO\x1f(b11,2b24)\x1e\
        00050 D     00032   21 4SG2D180\x1e\
        \x07\
        \x02\0\0\0\x01\0\0\0\
        \x04\0\0\0\x03\0\0\0\
        \x1e";
    let corners = [coord(1, 2, None), coord(3, 4, None)];
    let file = read(rt.alloc(), bytes.as_slice(), SG2D)?;
    assert_eq!(rt;
        read_sg2d(rt.alloc(), &file, 1)?.as_slice(),
        corners.as_slice()
    );
    Ok(())
}
