//! What may follow what is held, as a table.
//!
//! `judge` asks the numbers of a file and those that are held, and nothing of the changes. So a row has these numbers,
//! with the editions and updates before the held ones, equal to them and behind them.

use chart_model::{ChangeList, Dataset, Header, Held, Key};
use std::alloc::Global;
use std::test::Fail;
use update_sequence::Effect::{Cancel, Extend, Replace};
use update_sequence::SequenceFault::{Cancelled, Edition, Gap, NoBase, StaleBase};
use update_sequence::{Effect, SequenceFault, judge};

/// A data set without changes. One of edition 0 is an update, which cancels.
fn data_set(alloc: Global, key: Key, base: bool, edition: u16, update: u16) -> Dataset {
    let cancels = edition == 0;
    Dataset {
        header: Header {
            key,
            edition: u32::from(edition),
            update: u32::from(update),
            issued: *b"20240131",
            agency: 550,
            scale: 0,
        },
        base: base && !cancels,
        cancels,
        changes: ChangeList::new(alloc),
    }
}

/// Edition and update that are held, and whether the cell is cancelled; whether the file is a base
/// file, its edition and its update; what becomes of it.
type Row = (
    Option<(u32, u32, bool)>,
    (bool, u16, u16),
    Result<Effect, SequenceFault>,
);

/// The first row that is judged otherwise.
fn first_wrong(alloc: Global, key: Key, table: &[Row]) -> Option<usize> {
    for (place, (numbers, (base, edition, update), wanted)) in table.iter().enumerate() {
        let dataset = data_set(alloc, key, *base, *edition, *update);
        let held = numbers.map(|(edition, update, cancelled)| Held {
            edition,
            update,
            cancelled,
        });
        if judge(held.as_ref(), &dataset) != *wanted {
            return Some(place);
        }
    }
    None
}

const BASE_FILES: [Row; 9] = [
    (None, (true, 1, 3), Ok(Replace)),
    (Some((1, 2, false)), (true, 1, 2), Ok(Replace)),
    (Some((1, 2, true)), (true, 1, 2), Ok(Replace)),
    (Some((1, 2, false)), (true, 1, 3), Ok(Replace)),
    (Some((1, 2, false)), (true, 2, 0), Ok(Replace)),
    (Some((1, 2, true)), (true, 2, 0), Ok(Replace)),
    (Some((1, 2, false)), (true, 1, 1), STALE),
    (Some((1, 2, true)), (true, 1, 1), STALE),
    (
        Some((2, 0, false)),
        (true, 1, 5),
        Err(StaleBase {
            held_edition: 2,
            held_update: 0,
            edition: 1,
            update: 5,
        }),
    ),
];

/// Update 1 of the edition of which update 2 is held.
const STALE: Result<Effect, SequenceFault> = Err(StaleBase {
    held_edition: 1,
    held_update: 2,
    edition: 1,
    update: 1,
});

#[test]
fn base_files(rt: HostRuntime) -> Result<(), Fail> {
    let key = Key::from_bytes(b"AA5TEST1").ok_or("it is a key")?;
    assert_eq!(rt; first_wrong(rt.alloc(), key, &BASE_FILES), None);
    Ok(())
}

const UPDATES: [Row; 8] = [
    (Some((1, 0, false)), (false, 0, 9), Ok(Cancel)),
    (
        Some((1, 0, false)),
        (false, 2, 1),
        Err(Edition { held: 1, given: 2 }),
    ),
    (
        Some((2, 0, false)),
        (false, 1, 1),
        Err(Edition { held: 2, given: 1 }),
    ),
    (Some((1, 0, false)), (false, 1, 1), Ok(Extend)),
    (Some((1, 1, false)), (false, 1, 2), Ok(Extend)),
    (
        Some((1, 0, false)),
        (false, 1, 2),
        Err(Gap {
            wanted: 1,
            given: 2,
        }),
    ),
    (
        Some((1, 1, false)),
        (false, 1, 1),
        Err(Gap {
            wanted: 2,
            given: 1,
        }),
    ),
    (
        Some((1, u32::MAX, false)),
        (false, 1, 0),
        Err(Gap {
            wanted: 4_294_967_296,
            given: 0,
        }),
    ),
];

#[test]
fn updates(rt: HostRuntime) -> Result<(), Fail> {
    let key = Key::from_bytes(b"AA5TEST1").ok_or("it is a key")?;
    assert_eq!(rt; first_wrong(rt.alloc(), key, &UPDATES), None);
    Ok(())
}

#[test]
fn updates_of_no_cell(rt: HostRuntime) -> Result<(), Fail> {
    let key = Key::from_bytes(b"AA5TEST1").ok_or("it is a key")?;
    let table: [Row; 5] = [
        (None, (false, 1, 1), Err(NoBase(key))),
        (None, (false, 0, 1), Err(NoBase(key))),
        (Some((1, 0, true)), (false, 1, 1), Err(Cancelled(key))),
        (Some((1, 0, true)), (false, 0, 1), Err(Cancelled(key))),
        (Some((1, 0, true)), (false, 2, 1), Err(Cancelled(key))),
    ];
    assert_eq!(rt; first_wrong(rt.alloc(), key, &table), None);
    Ok(())
}
