//! What holds of words and of what they say.
//!
//! What the definitions make of words goes through `clap`'s own. The laws say in few words what a mariner may rely on.

ghost use Rattle.std.specs.Prelude.{◌≡◌, ◌≢◌, ◌↔◌, ◌≤◌, ◌++◌, ◌∷◌, [], List, ℕ, Some, None, codes};
ghost use Rattle.std.specs.Prelude.{slice_index, true, option_map};
ghost use Rattle.command_words.specs.Numbers.{SpellsNumber, number_from_to};
ghost use Rattle.command_words.specs.Settings.{AreInRange, centimetres_of, defaults, scale_of, shades_of};
ghost use Rattle.command_words.specs.Reading.{WordsValue, words_of};
ghost use Rattle.command_words.specs.Options.{words_naming, words_naming_apart, with_day, with_settings, OptionSets};
ghost use Rattle.date_display.specs.Texts.{SpellsDay, date_in};
ghost use Rattle.date_display.specs.Days.{DateValue};

use date_display::dates_are_spelled;

/// The function that definitions cite gives the number that a text spells, where it is in the range.
pub fn numbers_are_spelled()
    ensures { (low high : ℕ) (text : List ℕ) (n : ℕ) →
        (number_from_to low high text ≡ Some n) ↔ (SpellsNumber text n × (low ≤ n) × (n ≤ high)) }
{}

/// What words say is in its range.
pub fn settings_are_in_their_ranges()
    ensures { (words : List (List ℕ)) (said : WordsValue) → words_of words ≡ Some said → AreInRange said.settings }
{}

/// Words that name the two files and nothing else give these names and the defaults. A name that begins
/// with `-` (45) has to stand behind `=`.
pub fn defaults_stand_alone()
    ensures joined { (program catalogue table : List ℕ) →
        words_of (words_naming program catalogue table []) ≡ Some (with_settings catalogue table defaults) }
    ensures apart { (program catalogue table : List ℕ) → slice_index catalogue 0 ≢ 45 → slice_index table 0 ≢ 45 →
        words_of (words_naming_apart program catalogue table) ≡ Some (with_settings catalogue table defaults) }
{}

/// Each depth's option changes its own depth, and nothing else.
pub fn depths_are_set()
    ensures safety_contour { OptionSets (codes "--safety-contour=") centimetres_of
        (λ depth. record defaults { safety_contour = depth }) }
    ensures safety_depth { OptionSets (codes "--safety-depth=") centimetres_of
        (λ depth. record defaults { safety_depth = depth }) }
    ensures shallow { OptionSets (codes "--shallow=") centimetres_of (λ depth. record defaults { shallow = depth }) }
    ensures deep { OptionSets (codes "--deep=") centimetres_of (λ depth. record defaults { deep = depth }) }
{}

/// Each other option changes its own setting, and nothing else.
pub fn looks_are_set()
    ensures shades { OptionSets (codes "--shades=") shades_of (λ shades. record defaults { shades = shades }) }
    ensures pattern { (program catalogue table : List ℕ) →
        words_of (words_naming program catalogue table (codes "--pattern" ∷ []))
        ≡ Some (with_settings catalogue table (record defaults { pattern = true })) }
    ensures scale { OptionSets (codes "--scale=") scale_of (λ scale. record defaults { scale = scale }) }
{}

/// The option of the day gives the day that its text spells, and sets nothing else. Where the text is no day of the
/// calendar in eight digits the words say nothing.
pub fn days_are_set()
    ensures spelled { (program catalogue table text : List ℕ) (day : DateValue) → SpellsDay text day →
        words_of (words_naming program catalogue table ((codes "--day=" ++ text) ∷ []))
        ≡ Some (with_day catalogue table day) }
    ensures function { (program catalogue table text : List ℕ) →
        words_of (words_naming program catalogue table ((codes "--day=" ++ text) ∷ []))
        ≡ option_map (λ day. with_day catalogue table day) (date_in text) }
{
    dates_are_spelled();
}

/// Words that don't name both files, and words that ask for more than there is, say nothing.
pub fn other_words_are_refused()
    ensures nothing { words_of [] ≡ None }
    ensures no_catalogue { (program table : List ℕ) → words_of (program ∷ (codes "--table=" ++ table) ∷ []) ≡ None }
    ensures no_table { (program catalogue : List ℕ) → words_of (program ∷ (codes "--catalogue=" ++ catalogue) ∷ [])
        ≡ None }
    ensures twice { (program catalogue table other : List ℕ) →
        words_of (words_naming program catalogue table ((codes "--table=" ++ other) ∷ [])) ≡ None }
    ensures help { (program catalogue table : List ℕ) →
        words_of (words_naming program catalogue table (codes "--help" ∷ [])) ≡ None }
    ensures version { (program catalogue table : List ℕ) →
        words_of (words_naming program catalogue table (codes "--version" ∷ [])) ≡ None }
    ensures stray { (program catalogue table word : List ℕ) → slice_index word 0 ≢ 45 →
        words_of (words_naming program catalogue table (word ∷ [])) ≡ None }
{}
