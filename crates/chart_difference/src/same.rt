//! Records that are told apart, field by field: what is drawn and reported depends on each of them.
//!
//! Lists are compared item by item, whatever memory they share. A record whose version alone has risen is another one:
//! its version tells which change may follow.

ghost use Rattle.std.specs.Prelude.{◌≡◌};
ghost use Rattle.std.specs.Option.{option_copied};
ghost use Rattle.chart_difference.specs.Same as spec;

use chart_model::{AttrMap, Feature, Vector};

fn same_attrs(one: &AttrMap, other: &AttrMap) -> bool
    ensures { result ≡ spec.same_attrs one.now other.now }
{
    one.as_slice() == other.as_slice()
}

fn same_vector(one: &Vector, other: &Vector) -> bool
    ensures { result ≡ spec.same_vector one.now other.now }
{
    one.version == other.version
        && same_attrs(&one.attrs, &other.attrs)
        && one.pointers.as_slice() == other.pointers.as_slice()
        && one.coords.as_slice() == other.coords.as_slice()
}

/// What isn't a list: primitive, group, class, version and identifier.
fn same_head(one: &Feature, other: &Feature) -> bool
    ensures { result ≡ spec.same_head one.now other.now }
{
    one.prim == other.prim
        && one.grup == other.grup
        && one.class == other.class
        && one.version == other.version
        && one.foid == other.foid
}

fn same_feature(one: &Feature, other: &Feature) -> bool
    ensures { result ≡ spec.same_feature one.now other.now }
{
    same_head(one, other)
        && same_attrs(&one.attrs, &other.attrs)
        && one.related.as_slice() == other.related.as_slice()
        && one.pointers.as_slice() == other.pointers.as_slice()
}

/// Whether there are two vector records that are the same, or none.
pub(crate) fn same_vectors(one: Option<&Vector>, other: Option<&Vector>) -> bool
    ensures { result ≡ spec.same_if_any spec.same_vector (option_copied one.entry) (option_copied other.entry) }
{
    match (one, other) {
        (Some(one), Some(other)) => same_vector(one, other),
        (None, None) => true,
        _ => false,
    }
}

/// Whether there are two feature records that are the same, or none.
pub(crate) fn same_features(one: Option<&Feature>, other: Option<&Feature>) -> bool
    ensures { result ≡ spec.same_if_any spec.same_feature (option_copied one.entry) (option_copied other.entry) }
{
    match (one, other) {
        (Some(one), Some(other)) => same_feature(one, other),
        (None, None) => true,
        _ => false,
    }
}
