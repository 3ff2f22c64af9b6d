//! A ring that is traced edge by edge.
//!
//! `ring` and `presence` follow edges alike, one with points and one without. What is open of a ring is all that they
//! share.

ghost use Rattle.std.specs.Prelude.{◌≡◌};
ghost use Rattle.area_rings.specs.Rings.{ring_after};

use chart_model::Name;

/// A ring that isn't closed yet.
#[derive(Clone, Copy)]
pub(crate) struct OpenRing {
    /// The node where the ring begins.
    pub home: Name,
    /// The node to which it has come.
    pub at: Name,
}

/// How a ring stands after an edge that goes from a node to another: no ring is open where the edge
/// closes it. `None` where the edge begins elsewhere than the ring has come to.
pub(crate) fn follow(ring: Option<OpenRing>, from: Name, to: Name) -> Option<Option<OpenRing>>
    ensures { result ≡ ring_after ring from to }
{
    let home = match ring {
        None => from,
        Some(ring) if ring.at == from => ring.home,
        Some(_) => return None,
    };
    Some(if to == home {
        None
    } else {
        Some(OpenRing { home, at: to })
    })
}
