//! Load orders worked out by hand.
//!
//! Most catalogues list a few files in another order than that in which they are loaded, and one rule alone tells where
//! a file goes.

use super::lines::{Case, first_wrong};
use exchange_catalogue::OrderFault::{BadPath, Empty};
use exchange_catalogue::{cell_names_are_spelled, load_orders_are_one};
use std::test::Fail;

static ORDERS: [Case; 26] = [
    // a base file and its updates, in any order, and other files between them
    (
        b"BIN X.002\nBIN X.000\nBIN X.001",
        Ok(b"X.000\nX.001\nX.002"),
    ),
    (b"BIN X.001\nBIN X.000", Ok(b"X.000\nX.001")),
    (
        b"BIN X.100\nBIN X.020\nBIN X.003",
        Ok(b"X.003\nX.020\nX.100"),
    ),
    (
        b"ASC CATALOG.031\nBIN AA5TEST1\\AA5TEST1.001\nBIN AA5TEST1\\AA5TEST1.000\nTXT README.TXT",
        Ok(b"AA5TEST1/AA5TEST1.000\nAA5TEST1/AA5TEST1.001"),
    ),
    (
        b"TIF X.001\n-\nBIN X.000\nTXT X.002\nBIN X.TIF",
        Ok(b"X.000"),
    ),
    // an update without its base file, which another set may have had
    (b"BIN X.007", Ok(b"X.007")),
    // by the name and not by the folder; of one name the place in the catalogue counts
    (b"BIN A\\Y.000\nBIN B\\X.000", Ok(b"B/X.000\nA/Y.000")),
    (b"BIN B\\X.000\nBIN A\\X.000", Ok(b"B/X.000\nA/X.000")),
    (b"BIN A\\X.001\nBIN B\\X.000", Ok(b"B/X.000\nA/X.001")),
    (
        b"BIN B\\X.001\nBIN A\\X.000\nBIN A\\X.001\nBIN B\\X.000",
        Ok(b"A/X.000\nB/X.000\nB/X.001\nA/X.001"),
    ),
    // by what stands before the last dot, which isn't how whole names sort
    (b"BIN X-Y.000\nBIN X.001", Ok(b"X.001\nX-Y.000")),
    (b"BIN X.000.000\nBIN X.001", Ok(b"X.001\nX.000.000")),
    (b"BIN XY.000\nBIN X.001", Ok(b"X.001\nXY.000")),
    // by bytes: digits, then upper case, then lower case
    (
        b"BIN x.000\nBIN Y.000\nBIN 9.000",
        Ok(b"9.000\nY.000\nx.000"),
    ),
    // each path once, in either spelling, by its first entry that is a cell file
    (b"BIN Y.000\nBIN X.000\nBIN Y.000", Ok(b"X.000\nY.000")),
    (b"BIN A\\X.000\nBIN A/X.000", Ok(b"A/X.000")),
    (
        b"BIN B\\X.000\nBIN A\\X.000\nBIN B\\X.000",
        Ok(b"B/X.000\nA/X.000"),
    ),
    (
        b"ASC B\\X.000\nBIN A\\X.000\nBIN B\\X.000",
        Ok(b"A/X.000\nB/X.000"),
    ),
    // paths that are only alike
    (
        b"BIN .\\X.000\nBIN X.000\nBIN x.000",
        Ok(b"./X.000\nX.000\nx.000"),
    ),
    // of a record the first field counts
    (b"BIN X.000|BIN Y.000", Ok(b"X.000")),
    (b"BIN X.000|BIN \\Y.000", Ok(b"X.000")),
    (b"ASC X.000|BIN Y.000", Err(Empty)),
    // the first bad path by record, where the file is a cell file
    (b"BIN X.000\n-\nBIN \\Y.000\nBIN \\X.000", Err(BadPath(3))),
    (
        b"ASC \\X.000\nBIN ..\\X.TXT\nBIN ..\\X.000",
        Err(BadPath(3)),
    ),
    (b"-", Err(Empty)),
    (b"ASC CATALOG.031\nTXT README.TXT\n-", Err(Empty)),
];

#[test]
fn orders(rt: HostRuntime) -> Result<(), Fail> {
    assert_eq!(rt; first_wrong(rt.alloc(), &ORDERS)?, None);
    cell_names_are_spelled();
    load_orders_are_one();
    Ok(())
}
