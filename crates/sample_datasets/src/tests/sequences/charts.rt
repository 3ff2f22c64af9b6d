//! A small chart, built and extended.
//!
//! A draft and `build` make the same chart of a data set, however many changes of the draft are made one by one, so all
//! are held against one table. Of a chart a few numbers are looked at, of which each record of these updates changes at
//! least one.

ghost use Rattle.std.specs.Prelude.{IfOk};
ghost use Rattle.chart_closure.specs.Closed.{IsClosed};

use super::files::{
    BASE, DELETED, GENERAL, HIDDEN, INSERTED, MOVED, POINTING, SECOND, data_set_of,
};
use chart_closure::ClosureFault;
use chart_model::{Cell, Name};
use std::alloc::Global;
use std::process::Abort;
use std::test::Fail;
use update_apply::ChangeFault;
use update_sequence::{BuildFault, Draft, build, charts_are_closed};

const NODE: Name = Name { rcnm: 110, rcid: 1 };

/// What is looked at of a chart: its update, how many vector records and features it has, and the
/// longitude of the first node.
pub(crate) type Seen = (u32, usize, usize, Option<i32>);

/// The chart of the base file: a node, and a feature that points to it.
fn base_chart(alloc: Global) -> Result<Cell, Fail>
    ensures { IfOk result IsClosed }
{
    charts_are_closed();
    let dataset = data_set_of(alloc, &[BASE])?;
    if dataset.cancels || !dataset.base {
        return Err("it is a base file".into());
    }
    Ok(build(alloc, None, &dataset)?)
}

/// What is looked at of a chart.
pub(crate) fn seen(chart: &Cell) -> Seen {
    let place = match chart.vectors.get(NODE) {
        Some(node) => node.coords.as_slice().first().map(|coord| coord.x),
        None => None,
    };
    (
        chart.header.update,
        chart.vectors.len(),
        chart.features.len(),
        place,
    )
}

/// The draft of the chart of the base file.
fn base_draft(alloc: Global) -> Result<Draft, Fail> {
    let dataset = data_set_of(alloc, &[BASE])?;
    if dataset.cancels || !dataset.base {
        return Err("it is a base file".into());
    }
    Ok(Draft::of_base(alloc, dataset))
}

/// The draft of what an update with these data records makes of the chart of the base file.
fn draft_of(alloc: Global, records: &[&[u8]]) -> Result<Draft, Fail> {
    let chart = base_chart(alloc)?;
    let dataset = data_set_of(alloc, records)?;
    if dataset.cancels || dataset.base {
        return Err("it is an update".into());
    }
    Ok(Draft::of_update(alloc, &chart, dataset)?)
}

/// Makes so many changes of a draft one by one, or as many as there are, and then the others at once.
fn finished(alloc: Global, draft: Draft, steps: usize) -> Result<Cell, BuildFault> {
    let mut draft = draft;
    for _ in 0..steps {
        if draft.left() > 0 {
            draft.make_next(alloc)?;
        }
    }
    draft.finish(alloc)
}

/// The chart that an update with these data records builds on the chart of the base file.
fn built(alloc: Global, records: &[&[u8]]) -> Result<Result<Cell, BuildFault>, Fail> {
    let chart = base_chart(alloc)?;
    let dataset = data_set_of(alloc, records)?;
    if dataset.cancels || dataset.base {
        return Err("it is an update".into());
    }
    Ok(build(alloc, Some(&chart), &dataset))
}

/// What is looked at of the chart, or why there is none.
fn seen_or_fault(made: Result<Cell, BuildFault>) -> Result<Seen, BuildFault> {
    Ok(seen(&made?))
}

/// Holds what an update with these data records makes of the chart of the base file: built, and drafted in steps.
fn hold(
    rt: &impl Abort,
    alloc: Global,
    records: &[&[u8]],
    wanted: Result<Seen, BuildFault>,
) -> Result<(), Fail> {
    assert!(rt; seen_or_fault(built(alloc, records)?) == wanted);
    for steps in 0..4 {
        let draft = draft_of(alloc, records)?;
        assert!(rt;
            seen_or_fault(finished(alloc, draft, steps)) == wanted,
            "{steps} steps"
        );
    }
    Ok(())
}

#[test]
fn a_chart_is_drafted(rt: HostRuntime) -> Result<(), Fail> {
    let alloc = rt.alloc();
    let wanted = seen(&base_chart(alloc)?);
    for steps in 0..4 {
        let chart = finished(alloc, base_draft(alloc)?, steps)?;
        assert_eq!(rt; seen(&chart), wanted);
    }
    Ok(())
}

#[test]
fn a_refused_change_stays(rt: HostRuntime) -> Result<(), Fail> {
    let alloc = rt.alloc();
    let present = BuildFault::Change(ChangeFault::Present { name: NODE });
    let mut draft = draft_of(alloc, &[GENERAL, MOVED, INSERTED])?;
    for (left, made) in [(2, Ok(())), (1, Err(present)), (1, Err(present))] {
        assert_eq!(rt; draft.left(), left);
        if draft.left() > 0 {
            assert!(rt; draft.make_next(alloc) == made);
        }
    }
    Ok(())
}

#[test]
fn an_update_is_refused(rt: HostRuntime) -> Result<(), Fail> {
    let alloc = rt.alloc();
    let present = BuildFault::Change(ChangeFault::Present { name: NODE });
    hold(&rt, alloc, &[GENERAL, MOVED, INSERTED], Err(present))?;
    let dangling = ClosureFault::Dangling(Name { rcnm: 100, rcid: 2 }, Name { rcnm: 110, rcid: 2 });
    hold(
        &rt,
        alloc,
        &[GENERAL, MOVED, POINTING],
        Err(BuildFault::Closure(dangling)),
    )?;
    let lost = ClosureFault::Dangling(Name { rcnm: 100, rcid: 1 }, NODE);
    hold(
        &rt,
        alloc,
        &[GENERAL, DELETED],
        Err(BuildFault::Closure(lost)),
    )
}

/// The data records of an update, and what it makes of the chart of the base file.
static UPDATES: [(&[&[u8]], Seen); 4] = [
    (&[GENERAL, MOVED], (1, 1, 1, Some(8))),
    (&[GENERAL, MOVED, SECOND, POINTING], (1, 2, 2, Some(8))),
    (&[GENERAL, HIDDEN], (1, 1, 0, Some(100))),
    (&[GENERAL, HIDDEN, DELETED, SECOND], (1, 1, 0, None)),
];

#[test]
fn a_chart_is_extended(rt: HostRuntime) -> Result<(), Fail> {
    for (records, wanted) in &UPDATES {
        hold(&rt, rt.alloc(), records, Ok(*wanted))?;
    }
    Ok(())
}
