//! Values under the names of records, in one block in the order of the names.
//!
//! They are made in the order of the chart's own records and never changed, so a block that is searched takes less time
//! and memory than a tree.

ghost use Rattle.std.specs.Prelude.{◌≡◌, ◌<◌, T, IfOk, IfErr, IfSome, length};
ghost use Rattle.std.specs.List.{HoldsAt};
ghost use Rattle.std.specs.List.Sorted.{IsPartitionPoint, IsSearchInRange};
ghost use Rattle.std.specs.declared.cmp.Ordering.TheVariants.{Less, Equal, Greater};
ghost use Rattle.std.specs.FinMap as finite;
ghost use Rattle.chart_model.specs.Names.{name_cmp};

use chart_model::Name;

/// Where a name stands if each number from it to that of the last one stands there too. Records of a kind are mostly
/// numbered without gaps, so this mostly spares the search.
fn guess<V>(entries: &[(Name, V)], name: Name) -> Option<usize>
    ensures bound { IfSome result (λ place. place < length entries.now) }
    ensures found { IfSome result (HoldsAt (λ entry. name_cmp entry.0 name ≡ Equal) entries.now) }
{
    let last = entries.last()?;
    let behind = last.0.rcid.checked_sub(name.rcid)?;
    let place = entries.len().checked_sub(behind as usize + 1)?;
    let entry = entries.get(place)?;
    if entry.0 == name { Some(place) } else { None }
}

/// Where a name stands, or where it would have to stand.
fn place_of<V>(entries: &[(Name, V)], name: Name) -> Result<usize, usize>
    requires { T (finite.is_sorted name_cmp entries.now) }
    ensures bound { IsSearchInRange result (length entries.now) }
    ensures found { IfOk result (HoldsAt (λ entry. name_cmp entry.0 name ≡ Equal) entries.now) }
    ensures parted { IfErr result
        (IsPartitionPoint (λ entry. name_cmp entry.0 name ≡ Less)
        (λ entry. name_cmp entry.0 name ≡ Greater) entries.now) }
{
    if let Some(place) = guess(entries, name) {
        return Ok(place);
    }
    entries.binary_search_by_key(&name, |entry| entry.0)
}

/// The value under a name; `None` where there is none. It costs a binary search at most, and takes no memory.
pub(crate) fn find<V: Copy>(entries: &[(Name, V)], name: Name) -> Option<V>
    requires { T (finite.is_sorted name_cmp entries.now) }
    ensures { result ≡ finite.find name_cmp name entries.now }
{
    match place_of(entries, name) {
        Ok(place) => Some(entries[place].1),
        Err(_) => None,
    }
}
