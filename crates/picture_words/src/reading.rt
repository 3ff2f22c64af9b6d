//! The words, read.
//!
//! The values are read only where the command takes the words as a whole.

ghost use Rattle.std.specs.Prelude.{◌≡◌, ◌≤◌, map, string_bytes, codes, IfErr, IfOk, MatchResult};
ghost use Rattle.std.specs.Prelude.{Some, None, option_map};
ghost use Rattle.clap.specs.Words.{all_of, found_of, first_of, rows_of};
ghost use Rattle.command_words.specs.Settings.{AreInRange};
ghost use Rattle.picture_words.specs.Reading.{IsEndOf, IsSilent, files_in, value_of, view_in};
ghost use Rattle.picture_words.specs.Reading.{width_in, width_of, words_in, words_of};
ghost use Rattle.picture_words.specs.View.{border_of, if_shown, in_32_bits, value_of_view, view_between, view_of};

use crate::command::chart_picture;
use crate::end::{WordsEnd, end_of};
use crate::marked::marked_words;
use chart_model::Settings;
use chart_svg::View;
use clap::ArgMatches;
use command_words::{number_within, numbers_are_spelled, settings, text_of};
use std::alloc::{AllocError, Global};
use text_scan::read_signed;

/// How many units a picture is wide where the words don't say.
const WIDTH: u16 = 1_000;

/// The greatest width.
const WIDEST: u32 = 65_535;

/// What the words of the command line say.
#[derive(Debug, Drop)]
pub struct PictureWords {
    /// The name of the object catalogue's file.
    pub catalogue: String,
    /// The name of the lookup table's file.
    pub table: String,
    /// The name of the file of colours.
    pub colours: String,
    /// What the mariner sets.
    pub settings: Settings,
    /// The name of a route's file.
    pub route: Option<String>,
    /// What the picture shows; none where it is to show all that there is.
    pub view: Option<View>,
    /// How many units the picture is wide.
    pub width: u16,
    /// The names of the cell files, in the order in which they are loaded.
    pub files: Vec<String>,
}

/// The number, where 32 bits hold it.
fn in_32_bits(number: i64) -> Option<i32>
    ensures { result ≡ in_32_bits number }
{
    if i64::from(i32::MIN) <= number && number <= i64::from(i32::MAX) {
        Some(number as i32)
    } else {
        None
    }
}

/// A longitude or a latitude in degrees times 10,000,000, behind its mark.
#[tactic(auto, unfolding(crate::specs::View::border_of))]
fn border(text: &str) -> Option<i32>
    ensures { result ≡ border_of text.now }
{
    let [b'=', text @ ..] = text.as_bytes() else {
        return None;
    };
    in_32_bits(read_signed(text)?)
}

/// The view of these borders, where it has a width and a height.
fn shown(west: i32, south: i32, east: i32, north: i32, width: u16) -> Option<View>
    ensures { option_map value_of_view result ≡ if_shown
        (record { west = west; south = south; east = east; north = north; width = width }) }
{
    View::new(west, south, east, north, width)
}

/// The view of four borders.
fn view_between(west: &str, south: &str, east: &str, north: &str, width: u16) -> Option<View>
    ensures { option_map value_of_view result ≡ view_between width west.now south.now east.now north.now }
{
    shown(
        border(west)?,
        border(south)?,
        border(east)?,
        border(north)?,
        width,
    )
}

/// The view of borders, where they are four.
fn view_of(borders: &[&str], width: u16) -> Option<View>
    ensures { option_map value_of_view result ≡ view_of width (map (λ border. border.now) borders.now) }
{
    match borders {
        [west, south, east, north] => view_between(*west, *south, *east, *north, width),
        _ => None,
    }
}

/// How many units wide a text says that the picture is.
fn width_of(text: &str) -> Option<u16>
    ensures { result ≡ width_of text.now }
{
    numbers_are_spelled();
    match number_within(text, 1, WIDEST) {
        Some(width) => Some(width as u16),
        None => None,
    }
}

/// How many units the picture is wide, or the default.
fn width_in(matches: &ArgMatches) -> Option<u16>
    ensures { result ≡ width_in (rows_of (found_of matches.now)) }
{
    match text_of(matches, "width") {
        Some(text) => width_of(text),
        None => Some(WIDTH),
    }
}

/// The texts of an argument, where it is there.
fn texts_of<'a, 'm>(matches: &'m ArgMatches<'a>, name: &str) -> Option<&'m [&'a str]>
    ensures { option_map (λ texts. map (λ text. text.now) texts.now) result
        ≡ all_of name.now (rows_of (found_of matches.entry.now)) }
{
    matches.get_strs(name)
}

/// The view, where there is one; nothing where its borders don't fit.
fn view_in(matches: &ArgMatches, width: u16) -> Option<Option<View>>
    ensures { option_map (option_map value_of_view) result ≡ view_in width (rows_of (found_of matches.now)) }
{
    match texts_of(matches, "view") {
        Some(borders) => match view_of(borders, width) {
            Some(view) => Some(Some(view)),
            None => None,
        },
        None => Some(None),
    }
}

/// The name of a route's file, where there is one.
fn route_in(alloc: Global, matches: &ArgMatches) -> Result<Option<String>, AllocError>
    ensures { IfOk result (λ route. option_map string_bytes route
        ≡ first_of (codes "route") (rows_of (found_of matches.now))) }
{
    match text_of(matches, "route") {
        Some(text) => Ok(Some(String::from_str(alloc, text)?)),
        None => Ok(None),
    }
}

/// Texts of their own.
fn owned(alloc: Global, texts: &[&str]) -> Result<Vec<String>, AllocError>
    ensures { IfOk result (λ owned. map string_bytes owned.items ≡ map (λ text. text.now) texts.now) }
{
    let mut owned = Vec::new(alloc);
    for text in texts {
        owned.push(String::from_str(alloc, *text)?)?;
    }
    Ok(owned)
}

/// The names of the cell files.
fn files_in(alloc: Global, matches: &ArgMatches) -> Result<Vec<String>, AllocError>
    ensures { IfOk result (λ files. map string_bytes files.items ≡ files_in (rows_of (found_of matches.now))) }
{
    match texts_of(matches, "file") {
        Some(names) => owned(alloc, names),
        None => Ok(Vec::new(alloc)),
    }
}

/// What the matches say, where each value is in its range.
#[tactic(auto, unfolding(crate::specs::Reading::words_in))]
fn words_in(alloc: Global, matches: &ArgMatches) -> Result<PictureWords, WordsEnd>
    ensures { MatchResult result (λ words. words_in (rows_of (found_of matches.now)) ≡ Some (value_of words))
        (λ end. IsSilent end (words_in (rows_of (found_of matches.now)))) }
{
    let settings = settings(matches).ok_or(WordsEnd::Refused)?;
    let width = width_in(matches).ok_or(WordsEnd::Refused)?;
    let view = view_in(matches, width).ok_or(WordsEnd::Refused)?;
    let catalogue = text_of(matches, "catalogue").ok_or(WordsEnd::Refused)?;
    let table = text_of(matches, "table").ok_or(WordsEnd::Refused)?;
    let colours = text_of(matches, "colours").ok_or(WordsEnd::Refused)?;
    Ok(PictureWords {
        catalogue: String::from_str(alloc, catalogue)?,
        table: String::from_str(alloc, table)?,
        colours: String::from_str(alloc, colours)?,
        settings,
        route: route_in(alloc, matches)?,
        view,
        width,
        files: files_in(alloc, matches)?,
    })
}

/// Reads the words of the command line, the program's name first.
///
/// # Errors
///
/// `Asked` where they ask for help or for the version. `Refused` where the command doesn't take them, as `clap` reads a
/// simple command, or where a value is out of its range. `NoMemory` may come at any words.
pub fn read_picture_words(alloc: Global, words: &[String]) -> Result<PictureWords, WordsEnd>
    ensures said { IfOk result (λ read. words_of (map string_bytes words.now) ≡ Some (value_of read)) }
    // They are asked for a text, or refused, only where they say nothing and do so.
    ensures ends { IfErr result (IsEndOf (map string_bytes words.now)) }

    // The settings and the width of what is read are in their ranges.
    ensures ranges { IfOk result (λ read. AreInRange read.settings) }
    ensures width { IfOk result (λ read. 1 ≤ read.width) }
{
    let marked = marked_words(alloc, words)?;
    let matches = match chart_picture(alloc)?.try_get_matches_from(&marked) {
        Ok(matches) => matches,
        Err(error) => return Err(end_of(alloc, &error)),
    };
    words_in(alloc, &matches)
}
