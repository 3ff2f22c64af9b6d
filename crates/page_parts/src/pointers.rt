//! Names of records, and pointers to them.
//!
//! Each part of a pointer may be any number of its width here. Whether it names a record that is there, of a kind that
//! may stand there, is asked of a whole chart and not of the bytes of one pointer.

ghost use Rattle.std.specs.Prelude.{◌≡◌};
ghost use Rattle.page_parts.specs.Reader.{Finds};
ghost use Rattle.page_parts.specs.Pointers.{IsNameInRange, IsPointerInRange, name, name_at, pointer, pointer_at};

use crate::fault::PageFault;
use crate::lists::Part;
use crate::numbers::{read_byte, read_four_bytes};
use chart_model::{Name, Octets, Pointer};
use std::alloc::{AllocError, Global};

/// The five bytes of the name of a record, for what begins with a name and is added whole.
#[tactic(auto, unfolding(crate::specs::Pointers::name))]
pub fn name_bytes(value: Name) -> [u8; 5]
    ensures bytes { result ≡ name value }
    ensures in_range { IsNameInRange value }
{
    let [a, b, c, d] = value.rcid.to_be_bytes();
    [value.rcnm, a, b, c, d]
}

/// The nine bytes of a pointer.
#[tactic(auto, unfolding(crate::specs::Pointers::name, crate::specs::Pointers::pointer))]
fn pointer_bytes(value: Pointer) -> [u8; 9]
    ensures bytes { result ≡ pointer value }
    ensures in_range { IsPointerInRange value }
{
    let [a, b, c, d, e] = name_bytes(value.target);
    [
        a, b, c, d, e, value.ornt, value.usag, value.topi, value.mask,
    ]
}

/// Reads the name of a record.
#[tactic(auto, unfolding(crate::specs::Pointers::name_at))]
pub fn read_name(bytes: &[u8]) -> Result<(Name, &[u8]), PageFault>
    ensures { Finds (λ read. (read.0, read.1.now)) result (name_at bytes.now) }
{
    let (rcnm, rest) = read_byte(bytes)?;
    let (rcid, rest) = read_four_bytes(rest)?;
    Ok((Name { rcnm, rcid }, rest))
}

impl Part for Pointer {
    ghost use Rattle.page_parts.specs.Pointers.{IsPointerInRange, pointer, pointer_at};

    ghost part_at = { pointer_at };

    ghost spelling = { pointer };

    ghost is_in_range = { IsPointerInRange };

    #[tactic(auto, unfolding(crate::specs::Pointers::pointer_at))]
    fn read(_alloc: Global, bytes: &[u8]) -> Result<(Pointer, &[u8]), PageFault> {
        let (target, rest) = read_name(bytes)?;
        let (ornt, rest) = read_byte(rest)?;
        let (usag, rest) = read_byte(rest)?;
        let (topi, rest) = read_byte(rest)?;
        let (mask, rest) = read_byte(rest)?;
        let pointer = Pointer {
            target,
            ornt,
            usag,
            topi,
            mask,
        };
        Ok((pointer, rest))
    }

    fn put(&self, out: &mut Octets) -> Result<(), AllocError> {
        out.extend_from_slice(&pointer_bytes(*self))
    }
}
