//! The lines for standard error that tell of files.

ghost use Rattle.std.specs.Prelude.{◌≡◌, ◌++◌, pos, IfOk, OnOk};
ghost use Rattle.text_scan.specs.Written.{decimal_of};
ghost use Rattle.chart_picture.specs.Fault.{place_of, refusal_text, place_text};
ghost use Rattle.chart_picture.specs.End.{refused_line, table_line};

use crate::run::end::Place;
use crate::run::fault::{FileFault, TableFault};
use chart_model::Octets;
use std::alloc::{AllocError, Global};
use text_scan::write_number;

/// Adds a number in decimal digits.
fn push_number(alloc: Global, out: &mut Octets, number: u64) -> Result<(), AllocError>
    ensures { OnOk result (out.new ≡ out.old ++ decimal_of (pos number)) }
{
    write_number(alloc, out, i128::from(number))
}

/// Adds the number of the line, or a word where there is nothing to read.
fn push_fault(alloc: Global, out: &mut Octets, fault: TableFault) -> Result<(), AllocError>
    ensures { OnOk result (out.new ≡ out.old ++ place_of fault) }
{
    match fault {
        TableFault::Absent => out.extend_from_slice(b"absent"),
        TableFault::Long => out.extend_from_slice(b"long"),
        TableFault::Line(line) => push_number(alloc, out, line),
    }
}

/// The line of the fault of a table.
pub fn table_line(alloc: Global, which: u8, fault: TableFault) -> Result<Octets, AllocError>
    ensures { IfOk result (λ line. line ≡ table_line which fault) }
{
    let mut line = Octets::from_slice(alloc, b"chart_picture: tables ")?;
    push_number(alloc, &mut line, u64::from(which))?;
    line.extend_from_slice(b" ")?;
    push_fault(alloc, &mut line, fault)?;
    Ok(line)
}

/// Adds the number of a refusal and what it names, as they are replied to a line of a script.
fn push_refusal(
    alloc: Global,
    out: &mut Octets,
    name: &Octets,
    fault: &FileFault,
) -> Result<(), AllocError>
    ensures { OnOk result (out.new ≡ out.old ++ refusal_text name.now fault.now) }
{
    let (code, values) = fault.told(alloc, name)?;
    push_number(alloc, out, u64::from(code))?;
    if !values.as_slice().is_empty() {
        out.extend_from_slice(b" ")?;
    }
    out.extend_from_slice(values.as_slice())
}

/// Adds which file it is.
fn push_place(alloc: Global, out: &mut Octets, place: Place) -> Result<(), AllocError>
    ensures { OnOk result (out.new ≡ out.old ++ place_text place) }
{
    match place {
        Place::Cell(number) => {
            out.extend_from_slice(b" in file ")?;
            push_number(alloc, out, number)?;
            out.extend_from_slice(b" ")
        }
        Place::Route => out.extend_from_slice(b" in route "),
    }
}

/// The line of a file that is refused: the refusal as it is replied to a line of a script, and which file it is.
pub fn refused_line(
    alloc: Global,
    place: Place,
    name: &Octets,
    fault: &FileFault,
) -> Result<Octets, AllocError>
    ensures { IfOk result (λ line. line ≡ refused_line place name.now fault.now) }
{
    let mut line = Octets::from_slice(alloc, b"chart_picture: no ")?;
    push_refusal(alloc, &mut line, name, fault)?;
    push_place(alloc, &mut line, place)?;
    line.extend_from_slice(name.as_slice())?;
    Ok(line)
}
