//! Why a route is not read.
//!
//! A bad line is told before a wrong number of points, since their number is known behind the last line alone. Want of
//! memory says nothing of the file.

ghost use Rattle.std.specs.Prelude.{◌≡◌};
ghost use Rattle.route_check.specs.declared.fault.RouteFault.TheVariants.{NoMemory};

use std::alloc::AllocError;
use thiserror::Error;

/// Why a route is not read: its first bad line, or else how many points it has. Lines are counted from 1.
#[derive(Clone, Copy, Debug, PartialEq, Eq, Error)]
pub enum RouteFault {
    /// The line of this number is the first that says something and no box, or a later one that is no point.
    #[error("line {0} of the route is not understood")]
    BadLine(u64),
    /// So many points are fewer than 2.
    #[error("the route has too few points: {0}")]
    Few(u64),
    /// So many points are more than 1,000.
    #[error("the route has too many points: {0}")]
    Many(u64),
    #[error("there was no memory")]
    NoMemory,
}

impl From<AllocError> for RouteFault {
    ghost from_gives = { λ _ e. e ≡ NoMemory };

    fn from(_: AllocError) -> RouteFault {
        RouteFault::NoMemory
    }
}
