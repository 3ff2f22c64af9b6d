//! The words, read.
//!
//! The values are read only where the command takes the words as a whole.

ghost use Rattle.std.specs.Prelude.{◌≡◌, map, string_bytes, IfOk, MatchResult, Err, Some, None};
ghost use Rattle.clap.specs.Words.{found_of, rows_of};
ghost use Rattle.command_words.specs.declared.fault.WordsFault.TheVariants.{Refused};
ghost use Rattle.command_words.specs.Settings.{AreInRange};
ghost use Rattle.command_words.specs.Reading.{words_in, value_of, words_of};

use crate::command::ecdis;
use crate::fault::WordsFault;
use crate::values::{day, settings, text_of};
use chart_model::Settings;
use clap::ArgMatches;
use date_display::Day;
use std::alloc::Global;

/// What the words of the command line say.
#[derive(Debug, Drop)]
pub struct Words {
    /// The name of the object catalogue's file.
    pub catalogue: String,
    /// The name of the lookup table's file.
    pub table: String,
    /// What the mariner sets.
    pub settings: Settings,
    /// The day of which charts are drawn. Without one the whole charts are.
    pub day: Option<Day>,
}

/// What the matches say, where each value is in its range.
#[tactic(auto, unfolding(crate::specs::Reading::words_in))]
fn words_in(alloc: Global, matches: &ArgMatches) -> Result<Words, WordsFault>
    ensures { MatchResult result (λ words. words_in (rows_of (found_of matches.now)) ≡ Some (value_of words))
        (λ fault. fault ≡ Refused → words_in (rows_of (found_of matches.now)) ≡ None) }
{
    let catalogue = text_of(matches, "catalogue").ok_or(WordsFault::Refused)?;
    let table = text_of(matches, "table").ok_or(WordsFault::Refused)?;
    let settings = settings(matches).ok_or(WordsFault::Refused)?;
    let day = day(matches).ok_or(WordsFault::Refused)?;
    Ok(Words {
        catalogue: String::from_str(alloc, catalogue)?,
        table: String::from_str(alloc, table)?,
        settings,
        day,
    })
}

/// Reads the words of the command line, the program's name first.
///
/// # Errors
///
/// `Refused` where the command doesn't take the words, as `clap` reads a simple command, or where a value
/// is out of its range or no day. `NoMemory` may come at any words.
pub fn read_words(alloc: Global, words: &[String]) -> Result<Words, WordsFault>
    ensures said { IfOk result (λ read. words_of (map string_bytes words.now) ≡ Some (value_of read)) }
    ensures refused { result ≡ Err Refused → words_of (map string_bytes words.now) ≡ None }
    ensures ranges { IfOk result (λ read. AreInRange read.settings) }
{
    let matches = ecdis(alloc)?.try_get_matches_from(words)?;
    words_in(alloc, &matches)
}
