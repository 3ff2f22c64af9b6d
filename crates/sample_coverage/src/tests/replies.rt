//! Routes' files, and what is replied of their coverage.

use crate::tests::charts::{Chart, ONE, all_held};
use script_reader::print_reply;
use session_lists::cover_reply;
use std::test::Fail;

/// The charts that are held, the bytes of a route's file, and the reply.
static CASES: [(&[Chart], &[u8], &[u8]); 4] = [
    (
        ONE,
        b"box 1 1\n10 50\n190 50\n250 50\n",
        b"ok cover 2 1\nuncovered 2\n",
    ),
    // the leg's box touches the ring
    (
        ONE,
        b"box 10 1\n10 50\n190 50\n250 50\n",
        b"ok cover 2 2\nuncovered 1\nuncovered 2\n",
    ),
    (
        &[],
        b"box 1 1\n10 50\n190 50\n250 50\n",
        b"ok cover 2 2\nuncovered 1\nuncovered 2\n",
    ),
    (ONE, b"box 1 1\n10 50\n190 50\n", b"ok cover 1 0\n"),
];

#[test]
fn replies_of_coverage(rt: HostRuntime) -> Result<(), Fail> {
    let alloc = rt.alloc();
    for (at, (charts, bytes, wanted)) in CASES.iter().enumerate() {
        let state = all_held(alloc, charts)?;
        let reply = cover_reply(alloc, bytes, &state)?;
        let text = print_reply(alloc, &reply)?;
        assert!(rt; text.as_slice() == *wanted, "case {at}");
    }
    Ok(())
}
