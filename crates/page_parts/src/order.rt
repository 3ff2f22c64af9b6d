//! The order of keys.
//!
//! What is kept by key is written as a list, and read item by item. That each key comes behind the one before leaves
//! one spelling, and no place for a second item with the same key.

ghost use Rattle.std.specs.Prelude.{◌≡◌};
ghost use Rattle.page_parts.specs.Lists.{is_behind};

/// Whether a key comes behind the last one, where there is one.
pub fn is_behind<K: Ord>(last: &Option<K>, key: &K) -> bool
    ensures { result ≡ is_behind K.cmp last.now key.now }
{
    match last {
        Some(last) => last.cmp(key).is_lt(),
        None => true,
    }
}
