//! Panels by their numbers, against answers that were worked out by hand.

use super::shared::{Cells, Kinds, Line, NOTHING, Told, cells, turn};
use super::watched_panel::WatchedPanel;
use chart_ports::{Calls, FailingCalls};
use panel_port::{CountingPanel, FailingPanel, MemoryPanel, Panel, ShownBlocks};
use panel_scenes::{PanelRefusal, PanelScenes};
use std::alloc::{AllocError, Global};
use std::cell::RefCell;
use std::process::Abort;
use std::rc::Rc;
use std::test::Fail;

/// One block, and two, each of one item.
const ONE: Kinds = [2, 0, 0, 0, 0, 0, 0, 0, 0, 0, 0, 0];

const TWO: Kinds = [2, 2, 0, 0, 0, 0, 0, 0, 0, 0, 0, 0];

/// What is asked, and what is answered.
type Row = (Line, Told);

static REFUSED: [Row; 8] = [
    (Line::Refresh(0, ONE), Told::No(PanelRefusal::NoPanel(0))),
    (Line::Paint(4, 1), Told::No(PanelRefusal::NoPanel(4))),
    (Line::Panel(4), Told::No(PanelRefusal::NoPanel(4))),
    (Line::Close(4), Told::No(PanelRefusal::NoPanel(4))),
    (Line::Paint(1, 1), Told::No(PanelRefusal::NothingBegun)),
    (Line::Refresh(1, TWO), Told::Refresh(3)),
    (Line::Refresh(1, TWO), Told::No(PanelRefusal::Busy)),
    (Line::Refresh(2, TWO), Told::Refresh(3)),
];

/// After the failure the panel is cleared, and shows all.
static FAILED: [Row; 6] = [
    (Line::Refresh(1, TWO), Told::Refresh(3)),
    (Line::Paint(1, 9), Told::No(PanelRefusal::Failed(1))),
    (Line::Paint(1, 1), Told::No(PanelRefusal::NothingBegun)),
    (Line::Refresh(1, TWO), Told::Refresh(3)),
    (Line::Paint(1, 9), Told::Paint(3, 3)),
    (Line::Panel(1), Told::Panel(2, 2)),
];

/// A refresh goes on under its panel's new number, and then no call is made but for what differs.
static CLOSED: [Row; 10] = [
    (Line::Refresh(2, TWO), Told::Refresh(3)),
    (Line::Refresh(3, ONE), Told::Refresh(2)),
    (Line::Paint(3, 9), Told::Paint(2, 2)),
    (Line::Paint(2, 1), Told::Paint(1, 3)),
    (Line::Close(1), Told::Closed),
    (Line::Paint(1, 9), Told::Paint(3, 3)),
    (Line::Panel(2), Told::Panel(1, 1)),
    (Line::Panel(3), Told::No(PanelRefusal::NoPanel(3))),
    (Line::Refresh(1, ONE), Told::Refresh(1)),
    (Line::Paint(1, 9), Told::Paint(1, 1)),
];

/// The number of calls comes to its last value at the second one, and stays.
static LAST_CALL: [Row; 8] = [
    (Line::Panel(1), Told::Panel(u64::MAX - 2, 0)),
    (Line::Refresh(1, TWO), Told::Refresh(3)),
    (Line::Paint(1, 1), Told::Paint(1, 3)),
    (Line::Paint(1, 9), Told::Paint(3, 3)),
    (Line::Panel(1), Told::Panel(u64::MAX, 0)),
    (Line::Refresh(1, NOTHING), Told::Refresh(2)),
    (Line::Paint(1, 9), Told::Paint(2, 2)),
    (Line::Panel(1), Told::Panel(u64::MAX, 0)),
];

/// Each call has the last number, at which the panel fails; and the number of failures stays too.
static LAST_FAULT: [Row; 6] = [
    (Line::Panel(2), Told::Panel(u64::MAX, u64::MAX)),
    (Line::Refresh(2, TWO), Told::Refresh(3)),
    (Line::Paint(2, 9), Told::No(PanelRefusal::Failed(2))),
    (Line::Panel(2), Told::Panel(u64::MAX, u64::MAX)),
    (Line::Paint(2, 9), Told::No(PanelRefusal::NothingBegun)),
    (Line::Refresh(2, ONE), Told::Refresh(2)),
];

/// A panel that fails at its second call, one in memory, and one that tells nothing of its scene.
fn three_panels(alloc: Global) -> Result<Vec<Box<dyn Panel>>, AllocError> {
    let failing = FailingCalls::from_vec(vec![in alloc; 2]?);
    let mut panels: Vec<Box<dyn Panel>> = Vec::new(alloc);
    panels.push(Box::new(alloc, FailingPanel::new(alloc, failing))?)?;
    panels.push(Box::new(alloc, MemoryPanel::new(alloc))?)?;
    panels.push(Box::new(alloc, CountingPanel::new())?)?;
    Ok(panels)
}

/// A panel of which so many calls were made and failed, and which fails at the call of the last number or never.
fn old_panel(
    alloc: Global,
    made: u64,
    faults: u64,
    failing: FailingCalls,
) -> Result<Box<dyn Panel>, AllocError> {
    let blocks = Rc::new(alloc, RefCell::new(ShownBlocks::new(alloc)))?;
    let calls = Calls {
        failing,
        made,
        faults,
    };
    Ok(Box::new(alloc, WatchedPanel::new(blocks, calls))?)
}

/// Two panels whose numbers come to their last values, or stand there.
fn old_panels(alloc: Global) -> Result<Vec<Box<dyn Panel>>, AllocError> {
    let failing = FailingCalls::from_vec(vec![in alloc; u64::MAX]?);
    let mut panels: Vec<Box<dyn Panel>> = Vec::new(alloc);
    panels.push(old_panel(alloc, u64::MAX - 2, 0, FailingCalls::none(alloc))?)?;
    panels.push(old_panel(alloc, u64::MAX, u64::MAX, failing)?)?;
    Ok(panels)
}

fn try_all(
    test: &impl Abort,
    alloc: Global,
    cells: Cells,
    panels: Vec<Box<dyn Panel>>,
    rows: &[Row],
) -> Result<(), Fail> {
    let mut panels = panels;
    let mut scenes = PanelScenes::new(alloc, panels.len())?;
    for (number, (line, wanted)) in rows.iter().enumerate() {
        let told = turn(alloc, &mut scenes, &mut panels, cells, *line)?;
        assert!(test; told == *wanted, "line {number}");
    }
    Ok(())
}

#[test]
fn panels_answer_by_their_numbers(rt: HostRuntime) -> Result<(), Fail> {
    let alloc = rt.alloc();
    let cells = cells()?;
    for rows in [REFUSED.as_slice(), FAILED.as_slice(), CLOSED.as_slice()] {
        try_all(&rt, alloc, cells, three_panels(alloc)?, rows)?;
    }
    for rows in [LAST_CALL.as_slice(), LAST_FAULT.as_slice()] {
        try_all(&rt, alloc, cells, old_panels(alloc)?, rows)?;
    }
    Ok(())
}
