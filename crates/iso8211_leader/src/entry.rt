//! An entry of a directory.
//!
//! Its numbers stand as they were written: whether the field lies in its record is tested where that is known.

/// An entry of a record's directory (ISO/IEC 8211, directory): where a field stands.
#[derive(Clone, Copy, Debug)]
pub struct Entry {
    /// The field's tag.
    pub tag: [u8; 4],
    /// The bytes of the field, its terminator among them.
    pub length: u32,
    /// The field's first byte, counted from the base address.
    pub position: u32,
}
