//! Want of memory, at the beginning of a refresh or in the midst of its calls.
//!
//! The test is to pass under `rt try --test --fail-alloc N`, whatever N is: it then sees an allocation refused. With all
//! memory it sees each refresh finished at once.

use super::shared::{Row, blocks, paint, shows};
use chart_model::Key;
use panel_port::{BlockMap, MemoryPanel, Panel};
use scene_sync::Scene;
use std::alloc::{AllocError, Global};
use std::test::Fail;

/// Blocks that are shown one after the other, and the number of calls that each needs.
static SHOWN: [(&[Row], u64); 4] = [
    (&[(1, 1), (2, 2), (3, 1)], 4),
    (&[(2, 2), (3, 4), (5, 1)], 3),
    (&[(2, 1), (3, 4), (5, 1)], 1),
    (&[], 3),
];

/// Makes all calls of a refresh, and answers how many they were: none where there was no memory.
fn refreshed(
    alloc: Global,
    scene: &mut Scene,
    panel: &mut dyn Panel,
    target: BlockMap,
) -> Option<u64> {
    if scene.is_refreshing() {
        return None;
    }
    let calls = scene.begin_refresh(alloc, target).ok()?;
    match paint(alloc, scene, panel, calls) {
        Some(Ok(_)) => Some(calls),
        _ => None,
    }
}

/// Shows these blocks, once more where there was no memory: whether the scene was stale then, and all was painted anew.
fn shows_again(
    alloc: Global,
    scene: &mut Scene,
    panel: &mut dyn Panel,
    cell: Key,
    (rows, calls): (&[Row], u64),
) -> Result<bool, AllocError> {
    let made = refreshed(alloc, scene, panel, blocks(alloc, cell, rows)?);
    if made.is_some() {
        return Ok(made == Some(calls));
    }
    let is_stale = scene.is_stale() && !scene.is_refreshing();
    let anew = refreshed(alloc, scene, panel, blocks(alloc, cell, rows)?);
    Ok(is_stale && anew == Some((rows.len() as u64).saturating_add(1)))
}

/// Shows all, and answers whether each refresh was right.
fn shows_all(alloc: Global, cell: Key) -> Result<bool, AllocError> {
    let mut panel = MemoryPanel::new(alloc);
    let mut scene = Scene::new();
    for shown in SHOWN {
        let is_right = shows_again(alloc, &mut scene, &mut panel, cell, shown)?;
        if !is_right || !shows(panel.scene(), cell, shown.0) {
            return Ok(false);
        }
    }
    Ok(true)
}

/// The blocks are shown once more where what the test itself makes had no memory: so it never ends without having seen
/// them.
#[test]
fn refreshes_need_memory(rt: HostRuntime) -> Result<(), Fail> {
    let alloc = rt.alloc();
    let cell = Key::from_bytes(b"AA5TEST1").ok_or("no key")?;
    let is_right = match shows_all(alloc, cell) {
        Err(AllocError) => shows_all(alloc, cell)?,
        Ok(seen) => seen,
    };
    assert!(rt; is_right);
    Ok(())
}
