//! The calls that a desk in memory has logged.
//!
//! From the log alone it is known what a read gives, and what a crash at each moment could have
//! left.

/// What a call did. The bytes that it wrote or said stand apart.
#[derive(Clone, Copy, Debug, PartialEq, Eq)]
pub enum Deed {
    /// It left the files and what is said.
    Nothing,
    /// It was to write its bytes from a place on, and wrote so many of them.
    Write { file: u8, at: u64, done: usize },
    /// It was to cut a file to a length, and did so or not.
    Cut { file: u8, length: u64, done: bool },
    /// It was to bring a file to the disk, and did so or not.
    Sync { file: u8, done: bool },
    /// It was to say its bytes, and said so many of them.
    Say { done: usize },
}

/// What a call did, and how many bytes it was given to write or say.
#[derive(Clone, Copy, Debug)]
pub struct Logged {
    pub deed: Deed,
    pub size: usize,
}
