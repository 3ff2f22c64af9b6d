//! Identifiers of feature objects, and related objects.
//!
//! A feature's own identifier and those of the objects that it is related to are the same eight bytes (AGEN, FIDN,
//! FIDS), so one function reads both. An object that is named may be in no chart that is held.

ghost use Rattle.std.specs.Prelude.{◌≡◌, ◌++◌, OnOk};
ghost use Rattle.page_parts.specs.Reader.{Finds};
ghost use Rattle.page_parts.specs.RelatedObjects.{IsFoidInRange, IsRelatedInRange, foid, foid_at, related_object};

use crate::fault::PageFault;
use crate::lists::Part;
use crate::numbers::{read_byte, read_four_bytes, read_two_bytes};
use chart_model::{Foid, Octets, Related};
use std::alloc::{AllocError, Global};

/// The eight bytes of the identifier of a feature object.
#[tactic(auto, unfolding(crate::specs::RelatedObjects::foid))]
fn foid_bytes(value: Foid) -> [u8; 8]
    ensures bytes { result ≡ foid value }
    ensures in_range { IsFoidInRange value }
{
    let [a0, a1] = value.agen.to_be_bytes();
    let [f0, f1, f2, f3] = value.fidn.to_be_bytes();
    let [s0, s1] = value.fids.to_be_bytes();
    [a0, a1, f0, f1, f2, f3, s0, s1]
}

/// Adds the identifier of a feature object.
pub fn put_foid(out: &mut Octets, value: Foid) -> Result<(), AllocError>
    ensures bytes { OnOk result (out.new ≡ out.old ++ foid value) }
    ensures in_range { OnOk result (IsFoidInRange value) }
{
    out.extend_from_slice(&foid_bytes(value))
}

/// The nine bytes of a related object.
#[tactic(auto, unfolding(crate::specs::RelatedObjects::foid, crate::specs::RelatedObjects::related_object))]
fn related_bytes(value: Related) -> [u8; 9]
    ensures bytes { result ≡ related_object value }
    ensures in_range { IsRelatedInRange value }
{
    let [a, b, c, d, e, f, g, h] = foid_bytes(value.foid);
    [a, b, c, d, e, f, g, h, value.rind]
}

/// Reads the identifier of a feature object.
#[tactic(auto, unfolding(crate::specs::RelatedObjects::foid_at))]
pub fn read_foid(bytes: &[u8]) -> Result<(Foid, &[u8]), PageFault>
    ensures { Finds (λ read. (read.0, read.1.now)) result (foid_at bytes.now) }
{
    let (agen, rest) = read_two_bytes(bytes)?;
    let (fidn, rest) = read_four_bytes(rest)?;
    let (fids, rest) = read_two_bytes(rest)?;
    Ok((Foid { agen, fidn, fids }, rest))
}

impl Part for Related {
    ghost use Rattle.page_parts.specs.RelatedObjects.{IsRelatedInRange, related_object, related_object_at};

    ghost part_at = { related_object_at };

    ghost spelling = { related_object };

    ghost is_in_range = { IsRelatedInRange };

    #[tactic(auto, unfolding(crate::specs::RelatedObjects::related_object_at))]
    fn read(_alloc: Global, bytes: &[u8]) -> Result<(Related, &[u8]), PageFault> {
        let (foid, rest) = read_foid(bytes)?;
        let (rind, rest) = read_byte(rest)?;
        Ok((Related { foid, rind }, rest))
    }

    fn put(&self, out: &mut Octets) -> Result<(), AllocError> {
        out.extend_from_slice(&related_bytes(*self))
    }
}
