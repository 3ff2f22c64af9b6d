//! What a refusal says to a user.
//!
//! A script is answered by a code and values alone. These are the sentences of the same refusals, for callers of the
//! crate: each names the record, the cell or the place that it is about.

use chart_model::{Foid, Key, Name};
use chart_store::{Refusal, SubmitFault};
use std::alloc::AllocError;

const AREA: Name = Name { rcnm: 100, rcid: 2 };

const EDGE: Name = Name { rcnm: 130, rcid: 9 };

/// Whether the sentence of a refused command is this.
fn says(rt: HostRuntime, refusal: Refusal, sentence: &str) -> Result<bool, AllocError> {
    let text = format!(in rt.alloc(); "{}", SubmitFault::Refused(refusal))?;
    Ok(text.as_str() == sentence)
}

#[test]
fn refusals_of_a_file_say_what_and_where(rt: HostRuntime) -> Result<(), AllocError> {
    let directory = "no entry of a directory, or no end of it, stands at byte 225";
    assert!(rt; says(rt, Refusal::Directory(225), directory)?);
    let value = Refusal::Value {
        record: 1,
        label: *b"EDTN",
    };
    let no_value = "data record 1: EDTN has no value that it may have";
    assert!(rt; says(rt, value, no_value)?);
    let kept = Foid {
        agen: 550,
        fidn: 2,
        fids: 1,
    };
    let other = Refusal::Foid {
        name: AREA,
        kept,
        given: Foid { fidn: 7, ..kept },
    };
    assert!(rt;
        says(
            rt,
            other,
            "feature 100/2 is object 550 2 1, and not 550 7 1"
        )?
    );
    let dangling = Refusal::Dangling {
        name: AREA,
        target: EDGE,
    };
    let nowhere = "record 100/2 points to record 130/9, which is not there";
    assert!(rt; says(rt, dangling, nowhere)?);
    Ok(())
}

#[test]
fn refusals_of_a_command_say_what_it_lacks(rt: HostRuntime) -> Result<(), AllocError> {
    let Some(key) = Key::from_bytes(b"AA5TEST1") else {
        unreachable!();
    };
    let gap = Refusal::Gap {
        wanted: 1,
        given: 2,
    };
    assert!(rt; says(rt, gap, "update 2 does not follow: update 1 is next")?);
    let absent = "cell AA5TEST1 is not held, and an update needs it";
    assert!(rt; says(rt, Refusal::NoBase(key), absent)?);
    let first = "cell AA5TEST1 has no update 7 to go back to";
    assert!(rt; says(rt, Refusal::NoUpdate { key, update: 7 }, first)?);
    let full = Refusal::BankFull {
        length: 9,
        need: 14,
    };
    assert!(rt; says(rt, full, "a bank of 9 bytes has no room for 14 more")?);
    Ok(())
}
