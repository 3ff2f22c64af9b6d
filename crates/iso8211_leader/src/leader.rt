//! What a leader says of its record.
//!
//! What holds of each leader that is read is kept with it, so that nobody tests it again.

ghost use Rattle.std.specs.Prelude.{◌≤◌, ◌<◌};
ghost use Rattle.std.specs.Int.{IsInRange};

/// What the leader of a record says (ISO/IEC 8211, leader).
#[derive(Clone, Copy, Debug)]
pub struct Leader {
    /// The bytes of the record, its leader among them.
    pub length: u32,
    /// The base address of the field area, as a place in the record.
    pub base: u32,
    /// How many digits the length of a field has in a directory entry.
    pub size_length: u8,
    /// How many digits the position of a field has in a directory entry.
    pub size_position: u8,
    pub ghost after_directory: { 25 ≤ base },
    pub ghost within: { base ≤ length },
    pub ghost five_digits: { length < 100000 },
    pub ghost size_length_in: { IsInRange 1 9 size_length },
    pub ghost size_position_in: { IsInRange 1 9 size_position },
}
