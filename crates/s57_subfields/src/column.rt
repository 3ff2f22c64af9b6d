//! Whether a value under one label of the repeated group isn't what it has to be.
//!
//! It is asked for the fault of a list that isn't read, so it makes no values and takes no memory.

ghost use Rattle.std.specs.Prelude.{◌≡◌, is_none};
ghost use Rattle.std.specs.List.{list_any};
ghost use Rattle.s57_subfields.specs.Tails.{behind, tails, tails_of};

use crate::group::Groups;
use crate::kind::Kind;
use crate::row_fields::RowFields;
use iso8211_records::Value;

/// Whether the value so far behind a group's first isn't there, or isn't what it has to be.
fn is_bad<K: Kind>(kind: &K, group: &[Value], distance: u8) -> bool
    ensures { result ≡ is_none (behind (K.reads kind.now) distance group.now) }
{
    match group.get(distance as usize) {
        Some(value) => !kind.accepts(value),
        None => true,
    }
}

/// Whether a group of a field has such a value.
fn has_bad_in_field<K: Kind>(groups: &Groups, values: &[Value], kind: &K, distance: u8) -> bool
    ensures { result ≡ list_any (λ group. is_none (behind (K.reads kind.now) distance group))
        (tails groups.now.between groups.now.at values.now) }
{
    let mut at = groups.at as usize;
    while at < values.len() {
        if is_bad(kind, &values[at..], distance) {
            return true;
        }
        at += groups.between as usize + 1;
    }
    false
}

/// Whether a group of any of the fields has such a value.
pub(crate) fn has_bad<K: Kind>(
    groups: &Groups,
    values: &RowFields<'_>,
    kind: &K,
    distance: u8,
) -> bool
    ensures { result ≡ list_any (λ group. is_none (behind (K.reads kind.now) distance group))
        (tails_of groups.now.at groups.now.between values.now.fields) }
{
    let tag = values.tag();
    for field in values.record() {
        if field.tag != tag {
            continue;
        }
        if has_bad_in_field(groups, field.values.as_slice(), kind, distance) {
            return true;
        }
    }
    false
}
