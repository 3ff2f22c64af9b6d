//! The values of the options. Depths are in centimetres.
//!
//! Each value is a text to `clap`, which would take more spellings of a number (`+1`, `007`), and is read here. The
//! defaults stand here too: an option that isn't among the words has no text, and `clap` makes none up.

ghost use Rattle.std.specs.Prelude.{◌≡◌, codes, option_map, IfSome};
ghost use Rattle.clap.specs.Words.{first_of, found_of, rows_of};
ghost use Rattle.command_words.specs.Settings.{AreInRange, centimetres_of, defaults, is_set, scale_of, shades_of};
ghost use Rattle.command_words.specs.Reading.{day_in, depth_in, scale_in, settings_in, shades_in};
ghost use Rattle.date_display.specs.Days.{date_of};

use crate::numbers::number_within;
use chart_model::{Settings, Shades};
use clap::ArgMatches;
use date_display::{Day, read_day};

/// The greatest depth.
const DEEPEST: u32 = 1_000_000;

/// The greatest denominator of a display scale.
const SMALLEST_SCALE: u32 = 100_000_000;

/// The settings of a mariner who sets nothing.
const DEFAULTS: Settings = Settings {
    safety_contour: 3000,
    safety_depth: 3000,
    shallow: 200,
    deep: 3000,
    shades: Shades::Four,
    pattern: false,
    scale: 1,
};

/// The text of an option, where it is there.
pub fn text_of<'a>(matches: &ArgMatches<'a>, name: &str) -> Option<&'a str>
    ensures { option_map (λ text. text.now) result ≡ first_of name.now (rows_of (found_of matches.now)) }
{
    matches.get_str(name)
}

/// The depth that a text is.
fn centimetres(text: &str) -> Option<i32>
    ensures { result ≡ centimetres_of text.now }
{
    match number_within(text, 0, DEEPEST) {
        Some(depth) => Some(depth as i32),
        None => None,
    }
}

/// The number of shades that a text is.
fn shades(text: &str) -> Option<Shades>
    ensures { result ≡ shades_of text.now }
{
    match text {
        "2" => Some(Shades::Two),
        "4" => Some(Shades::Four),
        _ => None,
    }
}

/// The denominator of a display scale that a text is.
fn scale(text: &str) -> Option<u32>
    ensures { result ≡ scale_of text.now }
{
    number_within(text, 1, SMALLEST_SCALE)
}

/// The depth of this option, or its default.
fn depth_or(matches: &ArgMatches, name: &str, default: i32) -> Option<i32>
    ensures { result ≡ depth_in default name.now (rows_of (found_of matches.now)) }
{
    match text_of(matches, name) {
        Some(text) => centimetres(text),
        None => Some(default),
    }
}

/// The number of shades, or its default.
fn shades_or_default(matches: &ArgMatches) -> Option<Shades>
    ensures { result ≡ shades_in (rows_of (found_of matches.now)) }
{
    match text_of(matches, "shades") {
        Some(text) => shades(text),
        None => Some(DEFAULTS.shades),
    }
}

/// The denominator of the display scale, or its default.
fn scale_or_default(matches: &ArgMatches) -> Option<u32>
    ensures { result ≡ scale_in (rows_of (found_of matches.now)) }
{
    match text_of(matches, "scale") {
        Some(text) => scale(text),
        None => Some(DEFAULTS.scale),
    }
}

/// Whether areas that are not safe have a pattern.
fn has_pattern(matches: &ArgMatches) -> bool
    ensures { result ≡ is_set (first_of (codes "pattern") (rows_of (found_of matches.now))) }
{
    match text_of(matches, "pattern") {
        Some(text) => text == "true",
        None => false,
    }
}

/// The day of the option, or none where it isn't there. Text that is no day is no answer.
pub fn day(matches: &ArgMatches) -> Option<Option<Day>>
    ensures { option_map (option_map date_of) result ≡ day_in (rows_of (found_of matches.now)) }
{
    match text_of(matches, "day") {
        Some(text) => Some(Some(read_day(text.as_bytes())?)),
        None => Some(None),
    }
}

/// The settings that the values say.
#[tactic(auto, unfolding(crate::specs::Reading::settings_in))]
fn settings_in(matches: &ArgMatches) -> Option<Settings>
    ensures { result ≡ settings_in (rows_of (found_of matches.now)) }
{
    Some(Settings {
        safety_contour: depth_or(matches, "safety-contour", DEFAULTS.safety_contour)?,
        safety_depth: depth_or(matches, "safety-depth", DEFAULTS.safety_depth)?,
        shallow: depth_or(matches, "shallow", DEFAULTS.shallow)?,
        deep: depth_or(matches, "deep", DEFAULTS.deep)?,
        shades: shades_or_default(matches)?,
        pattern: has_pattern(matches),
        scale: scale_or_default(matches)?,
    })
}

/// The settings, where each value is in its range.
pub fn settings(matches: &ArgMatches) -> Option<Settings>
    ensures value { result ≡ settings_in (rows_of (found_of matches.now)) }
    ensures ranges { IfSome result AreInRange }
{
    settings_in(matches)
}
