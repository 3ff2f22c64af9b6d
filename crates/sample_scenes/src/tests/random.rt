//! Refreshes at random.
//!
//! A panel that fails now and then shows the blocks of its last finished refresh, as if they were put anew. Numbers begin
//! at 1 in every run, so that a fault is found again.

use super::shared::{Row, begin, blocks, paint, shows};
use chart_model::Key;
use chart_ports::FailingCalls;
use panel_port::FailingPanel;
use scene_sync::Scene;
use std::alloc::{AllocError, Global};
use std::test::Fail;

/// The next of numbers without a visible order.
fn number_after(number: u32) -> u32 {
    number.wrapping_mul(1_664_525).wrapping_add(1_013_904_223)
}

/// Some of eight features, with up to three items each.
fn some_rows(alloc: Global, number: u32) -> Result<Vec<Row>, AllocError> {
    let mut rows = Vec::new(alloc);
    for rcid in 1..9 {
        let shown = number >> (3 * rcid) & 7;
        if shown > 3 {
            rows.push((rcid, shown as usize - 4))?;
        }
    }
    Ok(rows)
}

#[test]
fn random_refreshes(rt: HostRuntime) -> Result<(), Fail> {
    let alloc = rt.alloc();
    let cell = Key::from_bytes(b"AA5TEST1").ok_or("no key")?;
    let failing = FailingCalls::from_vec(vec![in alloc; 3, 31, 32, 60, 61, 95, 130]?);
    let mut panel = FailingPanel::new(alloc, failing);
    let mut scene = Scene::new();
    let mut number = 1;
    let mut rows = Vec::new(alloc);
    for at in 0..200 {
        number = number_after(number);
        if scene.is_refreshing() {
            let _ = paint(alloc, &mut scene, &mut panel, u64::from(number >> 30));
        } else {
            rows = some_rows(alloc, number)?;
            begin(alloc, &mut scene, blocks(alloc, cell, &rows)?)?;
        }
        let is_done = !scene.is_stale() && !scene.is_refreshing();
        assert!(rt; !is_done || shows(panel.scene(), cell, &rows), "event {at}");
    }
    Ok(())
}
