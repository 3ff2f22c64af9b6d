//! The fields of records (ISO/IEC 8211, records).
//!
//! A directory stands before the fields, and says where each begins. So a record's directory and its field area grow
//! side by side, and are put behind each other when its last field is there.

ghost use Rattle.std.specs.Prelude.{◌≡◌, ◌++◌, ◌+◌, ◌<◌, [], length, codes, IfOk, OnOk};
ghost use Rattle.cell_bytes.specs.Record.{only_fields, base_of, digits, field, record_bytes, leader_of, no_fields};
ghost use Rattle.cell_bytes.specs.Record.{with_fields};
ghost use Rattle.cell_bytes.specs.Vector.{record_identifier};

use chart_model::Octets;
use chart_model::codes::FIELD_TERMINATOR;
use std::alloc::{AllocError, Global};

/// What the leader of a record says beside lengths.
#[derive(Clone, Copy, Debug)]
pub(crate) struct Kind {
    /// Leader bytes 5 to 11 (ISO/IEC 8211): interchange level, leader identifier, in-line code extension indicator,
    /// version number, application indicator, field control length.
    pub(crate) identification: [u8; 7],
    /// The indicator of the extended character set.
    pub(crate) character_set: [u8; 3],
}

/// The data descriptive record.
pub(crate) const DESCRIPTIVE: Kind = Kind {
    identification: *b"3LE1 09",
    character_set: *b" ! ",
};

/// A data record.
pub(crate) const OF_DATA: Kind = Kind {
    identification: *b" D     ",
    character_set: *b"   ",
};

/// The sizes of a directory entry's parts: five digits for a length and for a position, and four bytes for a tag.
const ENTRY_MAP: [u8; 4] = *b"5504";

/// The bytes of a leader.
const LEADER_LENGTH: usize = 24;

/// The fields of a record so far: its directory and its field area.
#[derive(Debug, Drop)]
pub(crate) struct Fields {
    pub(crate) directory: Octets,
    pub(crate) area: Octets,
}

/// The digits of a number below 100: most fields are so short, and most records have so few bytes before them.
#[tactic(auto, using(crate::proofs::Digits::two_of_five))]
fn two_of_five_digits(number: usize) -> [u8; 5]
    requires { number < 100 }
    ensures { result ≡ digits 5 number }
{
    [
        b'0',
        b'0',
        b'0',
        b'0' + (number / 10) as u8,
        b'0' + (number % 10) as u8,
    ]
}

/// The digits of a number below 100,000; of a greater one, the last five.
#[tactic(auto, unfolding(crate::specs::Record::digits))]
fn five_digits(number: usize) -> [u8; 5]
    ensures { result ≡ digits 5 number }
{
    if number < 100 {
        return two_of_five_digits(number);
    }
    let digit = |place: usize| b'0' + (number / place % 10) as u8;
    [digit(10_000), digit(1_000), digit(100), digit(10), digit(1)]
}

/// The entry of a field in a directory.
#[tactic(auto, unfolding(crate::specs::Record::digits))]
fn entry(tag: [u8; 4], length: usize, position: usize) -> [u8; 14]
    ensures { result ≡ tag ++ digits 5 length ++ digits 5 position }
{
    let [t0, t1, t2, t3] = tag;
    let [l0, l1, l2, l3, l4] = five_digits(length);
    let [p0, p1, p2, p3, p4] = five_digits(position);
    [t0, t1, t2, t3, l0, l1, l2, l3, l4, p0, p1, p2, p3, p4]
}

/// The leader of a record with this base address and so many bytes.
#[tactic(auto, unfolding(crate::specs::Record::digits))]
fn leader(kind: Kind, base: usize, length: usize) -> [u8; 24]
    ensures { result ≡ leader_of kind base length }
{
    let [l0, l1, l2, l3, l4] = five_digits(length);
    let [i0, i1, i2, i3, i4, i5, i6] = kind.identification;
    let [b0, b1, b2, b3, b4] = five_digits(base);
    let [c0, c1, c2] = kind.character_set;
    let [m0, m1, m2, m3] = ENTRY_MAP;
    [
        l0, l1, l2, l3, l4, i0, i1, i2, i3, i4, i5, i6, b0, b1, b2, b3, b4, c0, c1, c2, m0, m1, m2,
        m3,
    ]
}

impl Fields {
    /// No field yet. It takes no memory.
    pub(crate) fn new(alloc: Global) -> Fields
        ensures { result ≡ no_fields }
    {
        Fields {
            directory: Octets::from_vec(Vec::new(alloc)),
            area: Octets::from_vec(Vec::new(alloc)),
        }
    }

    /// Leaves the identifier of a record alone: the field 0001 with its number, which is the first of each record.
    #[tactic(auto, unfolding(crate::specs::Vector::record_identifier, crate::specs::Record::field, crate::specs::Record::with_field, crate::specs::Record::entry, crate::specs::Record::digits, crate::specs::Subfields::b12))]
    pub(crate) fn begin(&mut self, number: u16) -> Result<(), AllocError>
        ensures { OnOk result (self.new ≡ only_fields (record_identifier number)) }
    {
        self.directory.clear();
        self.area.clear();
        self.directory.extend_from_slice(b"00010000300000")?;
        let [low, high] = number.to_le_bytes();
        self.area.extend_from_slice(&[low, high, FIELD_TERMINATOR])
    }

    /// Adds a field: its entry to the directory, and its text and a field terminator to the field area.
    #[tactic(auto, unfolding(crate::specs::Record::field, crate::specs::Record::with_field, crate::specs::Record::entry))]
    pub(crate) fn add(&mut self, tag: [u8; 4], text: &[u8]) -> Result<(), AllocError>
        ensures { OnOk result (self.new ≡ with_fields self.old (field tag text.now)) }
    {
        let position = self.area.as_slice().len();
        self.area.extend_from_slice(text)?;
        self.area.extend_from_slice(&[FIELD_TERMINATOR])?;
        let length = self.area.as_slice().len() - position;
        self.directory
            .extend_from_slice(&entry(tag, length, position))
    }

    /// The base address of the field area. One that doesn't fit is want of memory: a directory has few entries.
    fn base(&self) -> Result<usize, AllocError>
        ensures { IfOk result (λ base. base ≡ base_of self.now.directory) }
    {
        let directory = self.directory.as_slice().len();
        directory.checked_add(LEADER_LENGTH + 1).ok_or(AllocError)
    }

    /// The bytes of a record of these fields. A number that doesn't fit is want of memory.
    pub(crate) fn record_length(&self) -> Result<usize, AllocError>
        ensures { IfOk result (λ bytes. bytes ≡ base_of self.now.directory + length self.now.area) }
    {
        self.base()?
            .checked_add(self.area.as_slice().len())
            .ok_or(AllocError)
    }

    /// Adds the bytes of a record of these fields.
    #[tactic(auto, unfolding(crate::specs::Record::record_bytes))]
    pub(crate) fn append_to(&self, out: &mut Octets, kind: Kind) -> Result<(), AllocError>
        ensures { OnOk result (out.new ≡ out.old ++ record_bytes kind self.now.directory self.now.area) }
    {
        out.extend_from_slice(&leader(kind, self.base()?, self.record_length()?))?;
        out.extend_from_slice(self.directory.as_slice())?;
        out.extend_from_slice(&[FIELD_TERMINATOR])?;
        out.extend_from_slice(self.area.as_slice())
    }
}
