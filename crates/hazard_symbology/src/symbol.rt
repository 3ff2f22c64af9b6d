//! The symbol of a hazard of unknown depth.
//!
//! Where no depth tells how dangerous it is, the object's class and its water level have to.

ghost use Rattle.std.specs.Prelude.{◌≡◌};
ghost use Rattle.hazard_symbology.specs.Symbol.{dries, wreck_symbol, rock_symbol, obstruction_symbol, symbol_of};

use chart_model::Feature;
use depth_values::codes::{
    AWASH, CATWRK, COVERS_AND_UNCOVERS, NON_DANGEROUS_WRECK, UWTROC, WATLEV, WRECK_WITH_HULL,
    WRECK_WITH_MAST, WRECKS,
};
use depth_values::has_value;

/// Whether the water level says that the hazard is above the water at times: it covers and uncovers, or is awash.
fn dries(feature: &Feature) -> bool
    ensures { result ≡ dries feature.now }
{
    has_value(feature, WATLEV, COVERS_AND_UNCOVERS) || has_value(feature, WATLEV, AWASH)
}

/// The symbol of a wreck: that of one that shows above the water, of one that isn't dangerous, or of any other.
fn wreck_symbol(feature: &Feature) -> &'static [u8]
    ensures { result.now ≡ wreck_symbol feature.now }
{
    if has_value(feature, CATWRK, WRECK_WITH_MAST) || has_value(feature, CATWRK, WRECK_WITH_HULL) {
        b"SY(WRECKS01)"
    } else if has_value(feature, CATWRK, NON_DANGEROUS_WRECK) {
        b"SY(WRECKS04)"
    } else {
        b"SY(WRECKS05)"
    }
}

/// The symbol of an underwater rock.
fn rock_symbol(feature: &Feature) -> &'static [u8]
    ensures { result.now ≡ rock_symbol feature.now }
{
    if dries(feature) {
        b"SY(UWTROC04)"
    } else {
        b"SY(UWTROC03)"
    }
}

/// The symbol of an obstruction, or of any other object.
fn obstruction_symbol(feature: &Feature) -> &'static [u8]
    ensures { result.now ≡ obstruction_symbol feature.now }
{
    if dries(feature) {
        b"SY(OBSTRN03)"
    } else {
        b"SY(OBSTRN01)"
    }
}

/// The symbol of a hazard of unknown depth, by its class.
pub fn symbol_of(feature: &Feature) -> &'static [u8]
    ensures { result.now ≡ symbol_of feature.now }
{
    match feature.class {
        WRECKS => wreck_symbol(feature),
        UWTROC => rock_symbol(feature),
        _ => obstruction_symbol(feature),
    }
}
