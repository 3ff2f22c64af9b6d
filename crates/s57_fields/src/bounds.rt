//! The bounds of positions, in degrees times 10,000,000, which is the factor of coordinates in an ENC.
//!
//! What lies beyond a pole or beyond 180 degrees is no place, and is refused where it is read. So all coordinates of a
//! chart fit 32 bits with their sign.

/// The greatest latitude, in degrees times 10,000,000.
pub(crate) const LATITUDE: u32 = 900_000_000;

/// The greatest longitude, in degrees times 10,000,000.
pub(crate) const LONGITUDE: u32 = 1_800_000_000;
