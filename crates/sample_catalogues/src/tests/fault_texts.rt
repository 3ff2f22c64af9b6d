//! What the faults of a catalogue and of a load order say.
//!
//! A catalogue is refused by the fault of its file, which says its own text.

use exchange_catalogue::{CatalogueFault, OrderFault};
use iso8211_records::FileFault;
use std::test::Fail;

/// Faults of catalogues, and what they say.
static OF_CATALOGUES: [(CatalogueFault, &str); 4] = [
    (
        CatalogueFault::File(FileFault::Leader(216)),
        "no leader of a record begins at byte 216",
    ),
    (
        CatalogueFault::MissingField {
            record: 2,
            tag: *b"CATD",
        },
        "data record 2: the field CATD has no FILE or no IMPL",
    ),
    (
        CatalogueFault::Value {
            record: 3,
            label: *b"IMPL",
        },
        "data record 3: the value of IMPL is no text",
    ),
    (
        CatalogueFault::NoMemory,
        "there was no memory, or too much work for one file",
    ),
];

/// Faults of load orders, and what they say.
static OF_ORDERS: [(OrderFault, &str); 4] = [
    (
        OrderFault::BadPath(4),
        "data record 4: the path of the cell file is not one that is fetched",
    ),
    (
        OrderFault::Many(1_001),
        "1001 cell files are listed, and at most 1000 are loaded",
    ),
    (OrderFault::Empty, "no cell file is listed"),
    (OrderFault::NoMemory, "there was no memory for the paths"),
];

#[test]
fn faults_say_what_is_wrong_and_where(rt: HostRuntime) -> Result<(), Fail> {
    for (at, (fault, said)) in OF_CATALOGUES.iter().enumerate() {
        let text = format!(in rt.alloc(); "{fault}")?;
        assert!(rt; text.as_str() == *said, "case {at}");
    }
    for (at, (fault, said)) in OF_ORDERS.iter().enumerate() {
        let text = format!(in rt.alloc(); "{fault}")?;
        assert!(rt; text.as_str() == *said, "case {at}");
    }
    Ok(())
}
