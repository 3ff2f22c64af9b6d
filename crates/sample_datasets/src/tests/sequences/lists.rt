//! Lists of whole files, rebuilt.
//!
//! A list is rebuilt only where each of its files was taken over behind those before it. So each is judged and built
//! here first, as a store does it, and then the chart of the whole list is made from nothing.

ghost use Rattle.std.specs.Prelude.{◌≡◌, ◌<◌, length, Some, IfOk, IsTrue};
ghost use Rattle.chart_model.specs.State.{IsFileLength};
ghost use Rattle.update_sequence.specs.Rebuilt.{numbers_of};
ghost use Rattle.update_sequence.specs.Sequence.{Leaves};

use super::charts::{Seen, seen};
use super::files::{BASE, CANCELLING, GENERAL, MOVED, NEXT, POINTING, SECOND, file_of};
use chart_model::{Cell, Dataset, FileList, Header, Held, Key, Octets, Shared};
use chart_ports::Steps;
use std::alloc::Global;
use std::marker::Brand;
use std::sync::ledger::{Blank, Ledger};
use std::test::Fail;
use update_sequence::{Effect, accepted_files_follow, build, judge, read_data_set, rebuild};

/// Files that were taken over, and what they leave.
#[derive(Drop)]
struct Taken {
    files: FileList,
    held: Held,
    chart: Option<Cell>,
}

/// Whether a file that is this data set may be one of the cell's.
fn is_of(key: Key, bytes: &[u8], dataset: &Dataset) -> bool
    ensures { IsTrue result → IsFileLength (length bytes.now) × (dataset.now.header.key ≡ key) }
{
    bytes.len() <= 8_388_608 && dataset.header.key == key
}

/// The numbers that a file leaves which doesn't cancel.
fn numbers_of(header: &Header) -> Held
    ensures { result ≡ numbers_of header.now }
{
    Held {
        edition: header.edition,
        update: header.update,
        cancelled: false,
    }
}

/// Takes over the base file.
fn first<C: Ledger>(
    alloc: Global,
    key: Key,
    bytes: Vec<u8>,
    steps: &mut Steps<C>,
) -> Result<Taken, Fail>
    ensures { IfOk result (λ taken. Leaves key taken.files (Some taken.held) taken.chart) }
{
    accepted_files_follow();
    let dataset = read_data_set(alloc, bytes.as_slice(), steps)?;
    if !is_of(key, bytes.as_slice(), &dataset) {
        return Err("it is of another cell".into());
    }
    if dataset.cancels || !dataset.base {
        return Err("it is no base file".into());
    }
    let effect = judge(None, &dataset)?;
    let cell = build(alloc, None, &dataset)?;
    let mut files = FileList::new(alloc);
    files.push(Shared::of(alloc, Octets::from_vec(bytes))?)?;
    match effect {
        Effect::Replace => Ok(Taken {
            files,
            held: numbers_of(&dataset.header),
            chart: Some(cell),
        }),
        _ => Err("it doesn't stand alone".into()),
    }
}

/// Takes over an update.
fn next<C: Ledger>(
    alloc: Global,
    key: Key,
    taken: Taken,
    bytes: Vec<u8>,
    steps: &mut Steps<C>,
) -> Result<Taken, Fail>
    requires { Leaves key taken.files (Some taken.held) taken.chart }
    ensures { IfOk result (λ after. Leaves key after.files (Some after.held) after.chart) }
{
    accepted_files_follow();
    let Taken { files, held, chart } = taken;
    let dataset = read_data_set(alloc, bytes.as_slice(), steps)?;
    if !is_of(key, bytes.as_slice(), &dataset) {
        return Err("it is of another cell".into());
    }
    let effect = judge(Some(&held), &dataset)?;
    let mut files = files;
    files.push(Shared::of(alloc, Octets::from_vec(bytes))?)?;
    match effect {
        Effect::Extend => {
            if dataset.cancels || dataset.base || chart.is_none() {
                return Err("it extends a chart".into());
            }
            let cell = build(alloc, chart.as_ref(), &dataset)?;
            Ok(Taken {
                files,
                held: numbers_of(&dataset.header),
                chart: Some(cell),
            })
        }
        Effect::Cancel => Ok(Taken {
            files,
            held: Held {
                cancelled: true,
                ..held
            },
            chart: None,
        }),
        Effect::Replace => Err("it stands alone".into()),
    }
}

/// The chart that is rebuilt from the base file and updates with these data records.
fn rebuilt<C: Ledger>(
    alloc: Global,
    updates: &[&[&[u8]]],
    blank: Blank,
) -> Result<Option<Seen>, Fail>
    requires name { blank.name ≡ C.name }
    requires parts { blank.parts ≡ C.parts }
    requires share { 0 < C.parts }
{
    let key = Key::from_bytes(b"AA5TEST1").ok_or("it is a key")?;
    let mut steps = Steps::<C>::new(blank);
    let mut taken = first(alloc, key, file_of(alloc, &[BASE])?, &mut steps)?;
    for records in updates {
        taken = next(alloc, key, taken, file_of(alloc, records)?, &mut steps)?;
    }
    let chart = rebuild(alloc, &taken.files, &mut steps)?;
    Ok(chart.as_ref().map(seen))
}

/// The data records of updates, and the chart that is rebuilt from the base file and these.
static LISTS: [(&[&[&[u8]]], Option<Seen>); 3] = [
    (&[], Some((0, 1, 1, Some(100)))),
    (
        &[&[GENERAL, MOVED], &[NEXT, SECOND, POINTING]],
        Some((2, 2, 2, Some(8))),
    ),
    (&[&[GENERAL, MOVED], &[CANCELLING]], None),
];

#[test]
fn lists_are_rebuilt(rt: HostRuntime) -> Result<(), Fail> {
    for (updates, wanted) in &LISTS {
        let chart = rebuilt::<Brand>(rt.alloc(), updates, Blank::new(1))?;
        assert_eq!(rt; chart, *wanted);
    }
    Ok(())
}
