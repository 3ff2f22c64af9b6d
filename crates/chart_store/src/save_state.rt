//! How far a save is.

/// How far a save is.
#[derive(Clone, Copy, Debug, PartialEq, Eq)]
pub enum SaveState {
    /// So many slices are written, of so many.
    Under(u32, u32),
    /// All are written, and the head is turned.
    Saved,
}
