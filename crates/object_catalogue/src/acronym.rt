//! The acronyms of object classes and attributes.
//!
//! An acronym has a fixed length, so it is an array that is copied and hashed without memory.

ghost use Rattle.std.specs.Prelude.{◌≡◌, ◌↔◌, IsTrue};
ghost use Rattle.std.specs.Option.{SomeIff};
ghost use Rattle.std.specs.List.{list_all};
ghost use Rattle.object_catalogue.specs.Acronym.{IsAcronym, is_acronym, is_acronym_byte, acronym_of};

/// The number of bytes of an acronym.
const LENGTH: usize = 6;

/// The acronym of an object class or an attribute (S-57 Appendix A): six bytes of `A` to `Z`, `0` to `9` and `_`.
pub type Acronym = [u8; LENGTH];

/// Whether each byte is a capital letter, a digit or `_`.
fn are_acronym_bytes(text: &[u8]) -> bool
    ensures { result ≡ list_all is_acronym_byte text.now }
{
    text.iter()
        .all(|byte| matches!(byte, b'A'..=b'Z' | b'0'..=b'9' | b'_'))
}

/// The acronym that a text is: six bytes of `A` to `Z`, `0` to `9` and `_`, and nothing else. It takes no memory.
pub fn read_acronym(text: &[u8]) -> Option<Acronym>
    ensures exact { SomeIff result (IsAcronym text.now) text.now }
    ensures function { result ≡ acronym_of text.now }
{
    match text {
        [a, b, c, d, e, f] if are_acronym_bytes(text) => Some([*a, *b, *c, *d, *e, *f]),
        _ => None,
    }
}
