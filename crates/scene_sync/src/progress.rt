//! How far a refresh has come.

/// How far a refresh has come.
#[derive(Clone, Copy, Debug, PartialEq, Eq)]
pub struct Progress {
    /// The number of its calls that were made.
    pub done: u64,
    /// The number of its calls.
    pub calls: u64,
}
