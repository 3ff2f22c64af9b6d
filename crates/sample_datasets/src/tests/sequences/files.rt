//! Small files, made by hand.
//!
//! An update is put together of a few records: a node that moves, one that goes, a feature that points to one that
//! isn't there. So a table can say an update as a list of them, and each may be taken or refused by what stands beside
//! it.

ghost use Rattle.std.specs.Prelude.{◌≡◌, ◌<◌};

use chart_model::Dataset;
use chart_ports::Steps;
use std::alloc::{AllocError, Global};
use std::marker::Brand;
use std::sync::ledger::{Blank, Ledger};
use update_sequence::{ReadFault, read_data_set};

/// The data descriptive record, of 500 bytes.
const FIRST: &[u8] =
    b"00500 L   0900106   23 4DSID58000DSSI21058DSPM51079VRID48130SGCC36178SG2D28214FRID69242FOID39311FSPT44350\x1e\
0000;&   \x1fDSNM!EDTN!UPDN!ISDT!PROF!AGEN\x1f(3A,A(8),b11,b12)\x1e\
0000;&   \x1fAALL\x1f(b11)\x1e\
0000;&   \x1fCSCL!DUNI!COUN!COMF!SOMF\x1f(b14,2b11,2b14)\x1e\
0000;&   \x1fRCNM!RCID!RVER!RUIN\x1f(b11,b14,b12,b11)\x1e\
0000;&   \x1fCCUI!CCIX!CCNC\x1f(b11,2b12)\x1e\
0000;&   \x1f*YCOO!XCOO\x1f(2b24)\x1e\
0000;&   \x1fRCNM!RCID!PRIM!GRUP!OBJL!RVER!RUIN\x1f(b11,b14,2b11,2b12,b11)\x1e\
0000;&   \x1fAGEN!FIDN!FIDS\x1f(b12,b14,b12)\x1e\
0000;&   \x1f*NAME!ORNT!USAG!MASK\x1f(B(40),3b11)\x1e";

/// The records of a base file: general information; parameters; an isolated node; a point feature there.
pub(crate) const BASE: &[u8] = b"00074 D   0900043   23 4DSID29000DSSI02029\x1e\
AA5TEST1.000\x1f1\x1f0\x1f20240131\x01&\x02\x1e\
\x01\x1e\
00049 D   0900034   23 4DSPM15000\x1e\
\x10'\0\0\x01\x01\x80\x96\x98\0\n\0\0\0\x1e\
00061 D   0900043   23 4VRID09000SG2D09009\x1e\
n\x01\0\0\0\x01\0\x01\x1e\
\0\0\0\0d\0\0\0\x1e\
00083 D   0900052   23 4FRID13000FOID09013FSPT09022\x1e\
d\x01\0\0\0\x01\x02*\0\x01\0\x01\x1e\
&\x02\x01\0\0\0\x01\0\x1e\
n\x01\0\0\0\xff\xff\xff\x1e";

/// The general information of the first update.
pub(crate) const GENERAL: &[u8] = b"00063 D   0900034   23 4DSID29000\x1e\
AA5TEST1.001\x1f1\x1f1\x1f20240201\x02&\x02\x1e";

/// The general information of the second update.
pub(crate) const NEXT: &[u8] = b"00063 D   0900034   23 4DSID29000\x1e\
AA5TEST1.002\x1f1\x1f2\x1f20240202\x02&\x02\x1e";

/// The general information of an update that cancels the cell.
pub(crate) const CANCELLING: &[u8] = b"00063 D   0900034   23 4DSID29000\x1e\
AA5TEST1.002\x1f0\x1f2\x1f20240202\x02&\x02\x1e";

/// The node at another place.
pub(crate) const MOVED: &[u8] = b"00076 D   0900052   23 4VRID09000SGCC06009SG2D09015\x1e\
n\x01\0\0\0\x02\0\x03\x1e\
\x03\x01\0\x01\0\x1e\
\x07\0\0\0\x08\0\0\0\x1e";

/// The node inserted, though it is there.
pub(crate) const INSERTED: &[u8] = b"00061 D   0900043   23 4VRID09000SG2D09009\x1e\
n\x01\0\0\0\x01\0\x01\x1e\
\0\0\0\0d\0\0\0\x1e";

/// The node deleted, to which a feature points.
pub(crate) const DELETED: &[u8] = b"00043 D   0900034   23 4VRID09000\x1e\
n\x01\0\0\0\x02\0\x02\x1e";

/// The feature deleted.
pub(crate) const HIDDEN: &[u8] = b"00047 D   0900034   23 4FRID13000\x1e\
d\x01\0\0\0\x01\x02*\0\x02\0\x02\x1e";

/// A second feature, which points to a node that isn't there.
pub(crate) const POINTING: &[u8] = b"00083 D   0900052   23 4FRID13000FOID09013FSPT09022\x1e\
d\x02\0\0\0\x01\x02*\0\x01\0\x01\x1e\
&\x02\x02\0\0\0\x01\0\x1e\
n\x02\0\0\0\xff\xff\xff\x1e";

/// The node that the second feature points to.
pub(crate) const SECOND: &[u8] = b"00061 D   0900043   23 4VRID09000SG2D09009\x1e\
n\x02\0\0\0\x01\0\x01\x1e\
\0\0\0\0d\0\0\0\x1e";

/// The bytes of a file with these data records.
pub(crate) fn file_of(alloc: Global, records: &[&[u8]]) -> Result<Vec<u8>, AllocError> {
    let mut bytes = FIRST.to_vec(alloc)?;
    for record in records {
        bytes.extend_from_slice(record)?;
    }
    Ok(bytes)
}

fn read_with<C: Ledger>(alloc: Global, bytes: &[u8], blank: Blank) -> Result<Dataset, ReadFault>
    requires name { blank.name ≡ C.name }
    requires parts { blank.parts ≡ C.parts }
    requires share { 0 < C.parts }
{
    let mut steps = Steps::<C>::new(blank);
    read_data_set(alloc, bytes, &mut steps)
}

/// The data set of a file with these data records.
pub(crate) fn data_set_of(alloc: Global, records: &[&[u8]]) -> Result<Dataset, ReadFault> {
    let Ok(bytes) = file_of(alloc, records) else {
        return Err(ReadFault::NoMemory);
    };
    read_with::<Brand>(alloc, bytes.as_slice(), Blank::new(1))
}
