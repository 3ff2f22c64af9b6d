//! What the values answer.
//!
//! Maps of names keep their values on pages that copies share, so names stand on both sides of a page's end, and alone
//! on many pages. Lengths of octets stand on both sides of what fits in place.

mod copies;

use chart_model::{Attr, AttrMap, Edit, Key, Name, NameMap, Octets};
use std::alloc::{AllocError, Global};
use std::test::Fail;

#[test]
fn keys(rt: HostRuntime) -> Result<(), Fail> {
    let longest = b"ABCDEFGHIJKLMNOPQRSTUVWXYZ012345";
    let too_long = b"ABCDEFGHIJKLMNOPQRSTUVWXYZ0123456";
    assert_eq!(rt; longest.len(), 32);
    let good: [&[u8]; 4] = [b"AA5TEST1", b"!", b"~.!", longest];
    for bytes in good {
        let key = Key::from_bytes(bytes).ok_or("a key")?;
        assert_eq!(rt; key.as_slice(), bytes);
    }
    let bad: [&[u8]; 5] = [b"", b"A B", b"A\x7F", b"\x1F", too_long];
    for bytes in bad {
        assert!(rt; Key::from_bytes(bytes).is_none(), "{bytes:?}");
    }
    Ok(())
}

#[test]
fn octets_give_their_bytes_back(rt: HostRuntime) -> Result<(), Fail> {
    let octets = Octets::from_vec(Vec::from_slice(rt.alloc(), b"\x00\xFF")?);
    assert_eq!(rt; octets.as_slice(), b"\x00\xFF".as_slice());
    Ok(())
}

/// How many bytes octets have: as many as stand in place, one more, and a cell file's.
static COUNTS: [usize; 9] = [0, 1, 21, 22, 23, 24, 60, 65_535, 65_536];

#[test]
fn octets_in_place_and_beyond(rt: HostRuntime) -> Result<(), Fail> {
    for count in COUNTS {
        let text = vec![in rt.alloc(); 7u8; count]?;
        let bytes = text.as_slice();
        let mut octets = Octets::from_slice(rt.alloc(), bytes)?;
        assert_eq!(rt; octets.as_slice(), bytes, "{count}");
        let copy = octets.clone()?;
        octets.extend_from_slice(b"xy")?;
        let mut all = Vec::from_slice(rt.alloc(), bytes)?;
        all.extend_from_slice(b"xy")?;
        assert_eq!(rt; octets.as_slice(), all.as_slice(), "{count}");
        octets.clear();
        assert_eq!(rt; octets.as_slice(), b"".as_slice(), "{count}");
        octets.extend_from_slice(b"z")?;
        assert_eq!(rt; octets.as_slice(), b"z".as_slice(), "{count}");
        assert_eq!(rt; copy.as_slice(), bytes, "{count}");
        let taken = copy.into_vec(rt.alloc())?;
        assert_eq!(rt; taken.as_slice(), bytes, "{count}");
    }
    Ok(())
}

#[test]
fn keys_in_order(rt: HostRuntime) -> Result<(), Fail> {
    let rising: [&[u8]; 5] = [b"A", b"AA", b"AB", b"B", b"a"];
    let mut below: Option<Key> = None;
    for bytes in rising {
        let key = Key::from_bytes(bytes).ok_or("a key")?;
        assert!(rt; below.is_none_or(|lower| lower < key), "{bytes:?}");
        below = Some(key);
    }
    Ok(())
}

#[test]
fn names_in_order(rt: HostRuntime) -> Result<(), Fail> {
    let mut names = NameMap::new(rt.alloc());
    for (rcnm, rcid) in [(110, 2), (130, 1), (100, 7), (110, 1), (110, 2)] {
        names.insert(Name { rcnm, rcid }, rcid)?;
    }
    let rising = [(100, 7), (110, 1), (110, 2), (130, 1)];
    assert_eq!(rt; names.len(), rising.len());
    for ((name, value), (rcnm, rcid)) in names.iter().zip(rising) {
        assert_eq!(rt; (name.rcnm, name.rcid, *value), (rcnm, rcid, rcid));
    }
    Ok(())
}

/// A value exchanged for another.
#[derive(Clone, Copy, Drop)]
struct Exchange(u8);

impl Edit<u8> for Exchange {
    ghost fits = { λ _ _. Unit {0} };

    ghost edited = { λ by _. by.0 };

    fn edit(self, value: &mut u8) -> Result<(), AllocError> {
        *value = self.0;
        Ok(())
    }
}

#[test]
fn values_edited_and_removed(rt: HostRuntime) -> Result<(), Fail> {
    let (here, elsewhere) = (Name { rcnm: 110, rcid: 1 }, Name { rcnm: 120, rcid: 1 });
    let mut names = NameMap::new(rt.alloc());
    names.insert(here, 5u8)?;
    let before = names.clone()?;
    names.edit(here, Exchange(6))?;
    names.edit(elsewhere, Exchange(7))?;
    assert_eq!(rt; names.get(here).copied(), Some(6));
    assert!(rt; !names.contains(elsewhere));
    names.remove(elsewhere)?;
    names.remove(here)?;
    assert_eq!(rt; (names.len(), before.get(here).copied()), (0, Some(5)));
    Ok(())
}

/// Whether a map has these numbers and values, in the order of its names, and no more.
fn has(names: &NameMap<u8>, rows: &[(u32, u8)]) -> bool {
    names.len() == rows.len()
        && names.iter().zip(rows).all(|((name, value), row)| name.rcid == row.0 && *value == row.1)
}

#[test]
fn copies_change_alone(rt: HostRuntime) -> Result<(), Fail> {
    let mut names = NameMap::new(rt.alloc());
    for (rcid, value) in [(32, 6), (15, 1), (16, 2), (17, 3), (31, 4), (0, 0)] {
        names.insert(Name { rcnm: 110, rcid }, value)?;
    }
    let mut copy = names.clone()?;
    for rcid in [15, 16, 32] {
        copy.remove(Name { rcnm: 110, rcid })?;
    }
    copy.insert(
        Name {
            rcnm: 110,
            rcid: 18,
        },
        5,
    )?;
    copy.insert(Name { rcnm: 110, rcid: 0 }, 7)?;
    copy.edit(
        Name {
            rcnm: 110,
            rcid: 17,
        },
        Exchange(8),
    )?;
    assert!(rt; has(&copy, &[(0, 7), (17, 8), (18, 5), (31, 4)]));
    assert!(rt;
        has(
            &names,
            &[(0, 0), (15, 1), (16, 2), (17, 3), (31, 4), (32, 6)]
        )
    );
    Ok(())
}

#[test]
fn pages_come_and_go(rt: HostRuntime) -> Result<(), Fail> {
    let mut names = NameMap::new(rt.alloc());
    for (rcid, value) in [(15, 1), (16, 2), (17, 3)] {
        names.insert(Name { rcnm: 110, rcid }, value)?;
    }
    names.remove(Name {
        rcnm: 110,
        rcid: 15,
    })?;
    names.remove(Name {
        rcnm: 110,
        rcid: 15,
    })?;
    assert!(rt; has(&names, &[(16, 2), (17, 3)]));
    names.remove(Name {
        rcnm: 110,
        rcid: 17,
    })?;
    names.remove(Name {
        rcnm: 110,
        rcid: 16,
    })?;
    assert!(rt; has(&names, &[]));
    names.insert(
        Name {
            rcnm: 110,
            rcid: 16,
        },
        4,
    )?;
    assert!(rt; has(&names, &[(16, 4)]));
    Ok(())
}

/// The name of a record that is alone on its page: its number is a multiple of 64.
fn alone(place: u16) -> Name {
    Name {
        rcnm: 130,
        rcid: place as u32 * 64,
    }
}

/// Changes a map as one small update does: at this place a value is edited, or every fourth time taken out, and 600
/// places on another is put.
fn update(names: &mut NameMap<u8>, place: u16) -> Result<(), AllocError> {
    if place % 4 == 0 {
        names.remove(alone(place))?;
    } else {
        names.edit(alone(place), Exchange(2))?;
    }
    names.insert(alone(place.wrapping_add(600)), 3)
}

#[test]
fn small_updates_of_records_alone_on_their_pages(rt: HostRuntime) -> Result<(), Fail> {
    let mut names = NameMap::new(rt.alloc());
    for place in 0..600 {
        names.insert(alone(place), 1)?;
    }
    for place in 0..600 {
        let before = names.clone()?;
        update(&mut names, place)?;
        assert_eq!(rt; before.get(alone(place)).copied(), Some(1), "{place}");
    }
    for place in 0..1_200 {
        let wanted = match (place < 600, place % 4 == 0) {
            (true, true) => None,
            (true, false) => Some(2),
            (false, _) => Some(3),
        };
        assert_eq!(rt; names.get(alone(place)).copied(), wanted, "{place}");
    }
    assert_eq!(rt; names.len(), 1_050);
    Ok(())
}

/// Attributes of codes and texts.
fn settings(alloc: Global, rows: &[(u16, &[u8])]) -> Result<Vec<Attr>, AllocError> {
    let mut settings = Vec::new(alloc);
    for (code, text) in rows {
        let value = Octets::from_vec(Vec::from_slice(alloc, text)?);
        settings.push(Attr { code: *code, value })?;
    }
    Ok(settings)
}

#[test]
fn attributes_set_in_turn(rt: HostRuntime) -> Result<(), Fail> {
    let mut attrs = AttrMap::new(rt.alloc());
    attrs.set(9, Octets::from_vec(Vec::from_slice(rt.alloc(), b"x")?))?;
    let rows: [(u16, &[u8]); 7] = [
        (133, b"2"),
        (7, b"\x7F\x7F"),
        (133, b""),
        (8, b"3"),
        (8, b"\x7F"),
        (9, b"\x7F"),
        (10, b"\x7F"),
    ];
    attrs.set_all(rt.alloc(), settings(rt.alloc(), &rows)?.as_slice())?;
    let left: [(u16, &[u8]); 2] = [(7, b"\x7F\x7F"), (133, b"")];
    assert_eq!(rt; attrs.len(), left.len());
    for (attr, (code, text)) in attrs.as_slice().iter().zip(left) {
        assert_eq!(rt; attr.code, code);
        assert_eq!(rt; attr.value.as_slice(), text);
    }
    assert!(rt; attrs.get(8).is_none() && attrs.get(7).is_some());
    assert!(rt; attrs.remove(7).is_some() && attrs.get(7).is_none());
    Ok(())
}

/// Settings and the attributes that they leave: in the order of their codes, in another order, of one code twice, and
/// with the delete character.
const SETTINGS: [(&[(u16, &[u8])], &[(u16, &[u8])]); 6] = [
    (&[], &[]),
    (
        &[(7, b"a"), (8, b""), (133, b"\x7F\x7F")],
        &[(7, b"a"), (8, b""), (133, b"\x7F\x7F")],
    ),
    (&[(8, b"b"), (7, b"a")], &[(7, b"a"), (8, b"b")]),
    (&[(7, b"a"), (7, b"b"), (8, b"c")], &[(7, b"b"), (8, b"c")]),
    (&[(7, b"a"), (8, b"\x7F")], &[(7, b"a")]),
    (
        &[(8, b"b"), (7, b"a"), (8, b"\x7F"), (0, b"c")],
        &[(0, b"c"), (7, b"a")],
    ),
];

#[test]
fn attributes_of_settings(rt: HostRuntime) -> Result<(), Fail> {
    for (given, left) in &SETTINGS {
        let attrs = AttrMap::from_settings(rt.alloc(), settings(rt.alloc(), *given)?)?;
        assert_eq!(rt; attrs.len(), left.len());
        for (attr, (code, text)) in attrs.as_slice().iter().zip(*left) {
            assert_eq!(rt; attr.code, *code);
            assert_eq!(rt; attr.value.as_slice(), *text);
        }
    }
    Ok(())
}

/// Sets or removes attributes by a call for each.
fn set_in_turn(attrs: &mut AttrMap, settings: &[Attr]) -> Result<(), AllocError> {
    for setting in settings {
        if setting.value.as_slice() == b"\x7F".as_slice() {
            let _ = attrs.remove(setting.code);
        } else {
            attrs.set(setting.code, setting.value.clone()?)?;
        }
    }
    Ok(())
}

/// Settings of the codes 400 to 369, each with an empty text, and these behind them.
fn many_before(alloc: Global, rows: &[(u16, &[u8])]) -> Result<Vec<Attr>, AllocError> {
    let mut many = Vec::new(alloc);
    for below in 0..32 {
        let value = Octets::from_vec(Vec::new(alloc));
        many.push(Attr {
            code: 400 - below,
            value,
        })?;
    }
    for setting in settings(alloc, rows)? {
        many.push(setting)?;
    }
    Ok(many)
}

#[test]
fn settings_merge_as_in_turn(rt: HostRuntime) -> Result<(), Fail> {
    let kept: [(u16, &[u8]); 4] = [(2, b"a"), (5, b"b"), (9, b"c"), (200, b"d")];
    let rows: [(u16, &[u8]); 10] = [
        (300, b"1"),
        (9, b"\x7F"),
        (5, b"2"),
        (7, b"3"),
        (7, b"\x7F"),
        (5, b"4"),
        (1, b"\x7F"),
        (1, b""),
        (2, b"\x7F"),
        (400, b"\x7F"),
    ];
    let cases = [
        (settings(rt.alloc(), &rows)?, 4),
        (many_before(rt.alloc(), &rows)?, 35),
    ];
    for (given, left) in &cases {
        let (mut all, mut each) = (AttrMap::new(rt.alloc()), AttrMap::new(rt.alloc()));
        all.set_all(rt.alloc(), settings(rt.alloc(), &kept)?.as_slice())?;
        each.set_all(rt.alloc(), settings(rt.alloc(), &kept)?.as_slice())?;
        all.set_all(rt.alloc(), given.as_slice())?;
        set_in_turn(&mut each, given.as_slice())?;
        assert_eq!(rt; (all.len(), each.len()), (*left, *left));
        for (attr, wanted) in all.as_slice().iter().zip(each.as_slice()) {
            assert_eq!(rt; attr.code, wanted.code);
            assert_eq!(rt; attr.value.as_slice(), wanted.value.as_slice());
        }
    }
    Ok(())
}
