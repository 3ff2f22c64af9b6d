//! Refreshes against numbers of calls that were worked out by hand.

use super::shared::{Row, begin, blocks, paint, paint_boxed, shows};
use chart_model::Key;
use chart_ports::FailingCalls;
use panel_port::{CountingPanel, FailingPanel, MemoryPanel, Panel};
use scene_sync::{PaintFault, Progress, Scene};
use std::alloc::Global;
use std::process::Abort;
use std::test::Fail;

static BEFORE: [Row; 3] = [(1, 1), (2, 2), (3, 1)];

/// The first feature is gone, the second stays, the third has another block, and one comes.
static AFTER: [Row; 3] = [(2, 2), (3, 4), (5, 1)];

/// How many calls are asked for, and how many of the refresh are made then.
static PAINTED: [(u64, u64); 4] = [(0, 0), (1, 1), (2, 3), (9, 4)];

/// Paints all of one refresh after the other.
fn try_all(
    test: &impl Abort,
    alloc: Global,
    panel: &mut Box<dyn Panel>,
    cell: Key,
) -> Result<(), Fail> {
    let refreshes: [(&[Row], u64); 6] = [
        (&BEFORE, 4),
        (&BEFORE, 0),
        (&AFTER, 3),
        (&[], 3),
        (&[], 0),
        (&AFTER, 3),
    ];
    let mut scene = Scene::new();
    for (rows, calls) in refreshes {
        assert!(test; begin(alloc, &mut scene, blocks(alloc, cell, rows)?)? == calls);
        let progress = Progress { done: calls, calls };
        let wanted = if calls == 0 { None } else { Some(Ok(progress)) };
        assert!(test; paint_boxed(alloc, &mut scene, panel, calls) == wanted);
        assert!(test; !scene.is_stale() && !scene.is_refreshing());
    }
    Ok(())
}

#[test]
fn refreshes_make_these_calls(rt: HostRuntime) -> Result<(), Fail> {
    let alloc = rt.alloc();
    let cell = Key::from_bytes(b"AA5TEST1").ok_or("no key")?;
    let mut panels: Vec<Box<dyn Panel>> = Vec::new(alloc);
    panels.push(Box::new(alloc, MemoryPanel::new(alloc))?)?;
    panels.push(Box::new(alloc, CountingPanel::new())?)?;
    for panel in &mut panels {
        try_all(&rt, alloc, panel, cell)?;
    }
    Ok(())
}

#[test]
fn painted_by_and_by(rt: HostRuntime) -> Result<(), Fail> {
    let alloc = rt.alloc();
    let cell = Key::from_bytes(b"AA5TEST1").ok_or("no key")?;
    let mut panel = MemoryPanel::new(alloc);
    let mut scene = Scene::new();
    assert!(rt; scene.is_stale());
    assert!(rt; begin(alloc, &mut scene, blocks(alloc, cell, &BEFORE)?)? == 4);
    for (n, done) in &PAINTED {
        let progress = Progress {
            done: *done,
            calls: 4,
        };
        assert!(rt; paint(alloc, &mut scene, &mut panel, *n) == Some(Ok(progress)));
        assert!(rt; scene.is_stale() == (*done == 0) && scene.is_refreshing() == (*done < 4));
    }
    assert!(rt; shows(panel.scene(), cell, &BEFORE));
    Ok(())
}

/// Paints call by call, and answers how many were made before one failed.
fn made(alloc: Global, scene: &mut Scene, panel: &mut dyn Panel, calls: u64) -> Option<u64> {
    for done in 0..calls {
        match paint(alloc, scene, panel, 1)? {
            Ok(_) => {}
            Err(PaintFault::Panel) => return Some(done),
            Err(PaintFault::NoMemory) => return None,
        }
    }
    Some(calls)
}

/// Paints two sets of blocks, and answers how many calls were made before one failed.
fn made_of_both(
    alloc: Global,
    scene: &mut Scene,
    panel: &mut dyn Panel,
    cell: Key,
) -> Result<u64, Fail> {
    let mut done: u64 = 0;
    for rows in [&BEFORE, &AFTER] {
        let calls = begin(alloc, scene, blocks(alloc, cell, rows)?)?;
        done = done.saturating_add(made(alloc, scene, panel, calls).ok_or("no memory")?);
        if scene.is_stale() {
            return Ok(done);
        }
    }
    Ok(done)
}

/// The refresh after a failure shows all, whichever call it was that failed.
#[test]
fn each_call_fails_in_turn(rt: HostRuntime) -> Result<(), Fail> {
    let alloc = rt.alloc();
    let cell = Key::from_bytes(b"AA5TEST1").ok_or("no key")?;
    for failing in 1..9 {
        let mut panel = FailingPanel::new(alloc, FailingCalls::from_vec(vec![in alloc; failing]?));
        let mut scene = Scene::new();
        let done = made_of_both(alloc, &mut scene, &mut panel, cell)?;
        let fails = failing < 8;
        assert!(rt; done == failing - 1, "call {failing}");
        assert!(rt;
            scene.is_stale() == fails && !scene.is_refreshing(),
            "call {failing}"
        );
        let calls = begin(alloc, &mut scene, blocks(alloc, cell, &AFTER)?)?;
        assert!(rt; calls == if fails { 4 } else { 0 }, "call {failing}");
        assert!(rt;
            made(alloc, &mut scene, &mut panel, calls) == Some(calls),
            "call {failing}"
        );
        assert!(rt; shows(panel.scene(), cell, &AFTER), "call {failing}");
    }
    Ok(())
}
