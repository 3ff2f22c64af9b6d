//! The digits of depths, as symbols draw them.
//!
//! What is rounded off isn't told, so it matters which way that goes. Towards 0, no depth is written deeper than it is;
//! a height that dries may be written lower than it is, by less than a metre.

ghost use Rattle.std.specs.Prelude.{◌≡◌, ◌+◌, ◌<◌, ◌≤◌, ◌∷◌, [], ◌++◌, length};
ghost use Rattle.chart_model.specs.Record.{IsWithin};
ghost use Rattle.depth_values.specs.Digits.{cell, prefix_of, metre_cells, sign_cells, digits_of};

use crate::cells::CellList;

/// The digits of a depth: each cell is a symbol, whose name is the prefix and the cell.
///
/// A cell is the digit's place and the digit; the first may be `A1`, the mark of what dries. The places
/// are from left to right `3`, `2`, `1`, `0` and `4`, and `5` is that of tenths of a metre.
#[derive(Debug, Drop)]
pub struct Digits {
    /// `SOUNDS` of a depth up to the safety depth, and `SOUNDG` of a greater one.
    pub prefix: [u8; 6],
    /// The sign's cell, if any, and the digits' cells.
    pub cells: CellList,
}

/// The symbols' prefix.
fn prefix(depth: i32, safety_depth: i32) -> [u8; 6]
    ensures { result ≡ prefix_of depth safety_depth }
{
    if depth <= safety_depth {
        *b"SOUNDS"
    } else {
        *b"SOUNDG"
    }
}

/// The cell of a digit at its place.
fn digit(place: u8, digit: u32) -> [u8; 2]
    requires place { 48 ≤ place }
    requires digit { digit < 10 }
    ensures { result ≡ place ∷ (48 + digit) ∷ [] }
{
    [place, b'0' + digit as u8]
}

/// Adds the cells of whole metres from 100 on.
fn push_hundreds(cells: &mut CellList, metres: u32)
    requires digits { metres < 100000 }
    requires more { 100 ≤ metres }
    requires room { length cells.old ≤ 1 }
    ensures { cells.new ≡ cells.old ++ metre_cells metres 0 }
{
    let units = metres % 10;
    let tens = metres / 10 % 10;
    let hundreds = metres / 100 % 10;
    let thousands = metres / 1_000 % 10;
    match metres {
        0..=999 => cells.push_all(&[digit(b'2', hundreds), digit(b'1', tens), digit(b'0', units)]),
        1_000..=9_999 => cells.push_all(&[
            digit(b'2', thousands),
            digit(b'1', hundreds),
            digit(b'0', tens),
            digit(b'4', units),
        ]),
        _ => cells.push_all(&[
            digit(b'3', metres / 10_000),
            digit(b'2', thousands),
            digit(b'1', hundreds),
            digit(b'0', tens),
            digit(b'4', units),
        ]),
    }
}

/// Adds the cells of whole metres and tenths of a metre.
fn push_metres(cells: &mut CellList, metres: u32, tenths: u32)
    requires digits { metres < 100000 }
    requires tenth { tenths < 10 }
    requires room { length cells.old ≤ 1 }
    ensures { cells.new ≡ cells.old ++ metre_cells metres tenths }
{
    let units = metres % 10;
    match metres {
        0..=9 if tenths == 0 => cells.push_all(&[digit(b'1', units)]),
        0..=9 => cells.push_all(&[digit(b'1', units), digit(b'5', tenths)]),
        10..=30 if tenths != 0 => cells.push_all(&[
            digit(b'2', metres / 10),
            digit(b'1', units),
            digit(b'5', tenths),
        ]),
        10..=99 => cells.push_all(&[digit(b'1', metres / 10), digit(b'0', units)]),
        _ => push_hundreds(cells, metres),
    }
}

/// The digits of a depth in centimetres, for the safety depth: tenths of a metre where there are any and
/// the depth is less than 31 metres, and whole metres otherwise, both rounded towards 0. It takes no memory.
pub fn digit_cells(depth: i32, safety_depth: i32) -> Digits
    requires { IsWithin 9999999 depth }
    ensures { result ≡ digits_of depth safety_depth }
{
    let decimetres = depth.unsigned_abs() / 10;
    let mut cells = CellList::new();
    if depth < 0 {
        cells.push_all(&[*b"A1"]);
    }
    push_metres(&mut cells, decimetres / 10, decimetres % 10);
    Digits {
        prefix: prefix(depth, safety_depth),
        cells,
    }
}
