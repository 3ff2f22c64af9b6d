//! Two names.
//!
//! That there are two is kept beside them, so that either can be taken out without a test.

ghost use Rattle.std.specs.Prelude.{◌≡◌, ◌≤◌, [], ◌∷◌, length};
ghost use Rattle.std.specs.List.{insert};

use chart_model::Name;

/// Two names in a row.
#[derive(Debug, Drop)]
pub(crate) struct Pair {
    pub(crate) names: [Name; 2],
    pub(crate) ghost two: { length names ≡ 2 },
}

impl Pair {
    /// A name, and another that is put into a place.
    pub(crate) fn of(one: Name, place: usize, other: Name) -> Pair
        requires { place ≤ 1 }
        ensures { result.names ≡ insert (one ∷ []) place other }
    {
        if place == 0 {
            Pair {
                names: [other, one],
            }
        } else {
            Pair {
                names: [one, other],
            }
        }
    }
}
