//! A store in a folder of real files.
//!
//! A real folder tells contracts nothing, so that a store is found in it again is seen by trying. What a loss of power
//! would leave of it can't be tried here: that is what the clauses over the desk in memory say.

use crate::files::{BASE, FIRST_UPDATE};
use crate::stores::{Told, tell};
use chart_ports::FolderDesk;
use std::fs;
use std::test::Fail;

const FOLDER: &str = "chart-store";

/// What the last of what was told says.
fn last_of(told: &[Told]) -> (&str, &str) {
    match told.last() {
        Some(told) => (told.answer.as_str(), told.held.as_str()),
        None => ("", ""),
    }
}

#[test]
fn a_store_is_found_again_in_its_folder(rt: HostRuntime) -> Result<(), Fail> {
    let alloc = rt.alloc();
    let _ = fs::remove_dir_all(&rt, FOLDER);
    let written = tell(alloc, &mut FolderDesk::new(&rt), &[BASE, FIRST_UPDATE])?;
    let update = "AA5TEST1 2 over a chart: 1 1 false 110/1";
    assert_eq!(rt;
        last_of(written.as_slice()),
        (update, "AA5TEST1 1.1 2 1.1 1;")
    );
    // The nine bytes of an empty bank, and records of 773 and 645 bytes.
    assert_eq!(rt; fs::metadata(&rt, "chart-store/bank1")?.len(), 1427);
    let found = tell(alloc, &mut FolderDesk::new(&rt), &[])?;
    assert_eq!(rt;
        last_of(found.as_slice()),
        ("open", "AA5TEST1 1.1 2 1.1 1;")
    );
    fs::remove_dir_all(&rt, FOLDER)?;
    Ok(())
}
