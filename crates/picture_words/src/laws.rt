//! What holds of words and of what they say.
//!
//! What the definitions make of words goes through `clap`'s own. The laws say in few words what a mariner may rely on.

ghost use Rattle.std.specs.Prelude.{◌≡◌, ◌++◌, ◌∷◌, [], List, ℕ, Some, None, codes, true, false};
ghost use Rattle.std.specs.Prelude.{option_map};
ghost use Rattle.picture_words.specs.Naming.{naming, words_naming};
ghost use Rattle.picture_words.specs.Reading.{ask, are_refused, width_of, words_of};
ghost use Rattle.picture_words.specs.View.{view_of};

/// Words that name the three tables, and two files behind `--`, and nothing else give these names, the files in their
/// order, and the defaults.
pub fn defaults_stand_alone()
    ensures { (program catalogue table colours one two : List ℕ) →
        words_of (words_naming program catalogue table colours (codes "--" ∷ one ∷ two ∷ []))
        ≡ Some (naming catalogue table colours (one ∷ two ∷ [])) }
{}

/// A route, a width and a view are set by their own options, and nothing else is. The borders of a view may begin with
/// `-`.
pub fn what_is_shown_is_set()
    ensures route { (program catalogue table colours route file : List ℕ) →
        words_of (words_naming program catalogue table colours
        ((codes "--route=" ++ route) ∷ codes "--" ∷ file ∷ []))
        ≡ Some (record (naming catalogue table colours (file ∷ [])) { route = Some route }) }
    ensures width { (program catalogue table colours width file : List ℕ) →
        words_of (words_naming program catalogue table colours
        ((codes "--width=" ++ width) ∷ codes "--" ∷ file ∷ []))
        ≡ option_map (λ units. record (naming catalogue table colours (file ∷ [])) { width = units })
        (width_of width) }
    ensures view { (program catalogue table colours west south east north file : List ℕ) →
        words_of (words_naming program catalogue table colours
        (codes "--view" ∷ west ∷ south ∷ east ∷ north ∷ codes "--" ∷ file ∷ []))
        ≡ option_map (λ view. record (naming catalogue table colours (file ∷ [])) { view = Some view })
        (view_of 1000 ((61 ∷ west) ∷ (61 ∷ south) ∷ (61 ∷ east) ∷ (61 ∷ north) ∷ [])) }
{}

/// Words that ask for the help or the version are answered with it, whatever else they say and lack.
pub fn texts_are_asked_for()
    ensures help { (program : List ℕ) → ask (program ∷ codes "--help" ∷ []) ≡ true }
    ensures version { (program : List ℕ) → ask (program ∷ codes "--version" ∷ []) ≡ true }
    ensures behind { (program catalogue table colours : List ℕ) →
        ask (words_naming program catalogue table colours (codes "--help" ∷ [])) ≡ true }
    ensures unrefused { (program : List ℕ) → are_refused (program ∷ codes "--help" ∷ []) ≡ false }
{}

/// Words that don't name the tables or a file, and words that ask for more than there is, say nothing.
pub fn other_words_are_refused()
    ensures nothing { are_refused [] ≡ true }
    ensures no_catalogue { (program table colours file : List ℕ) → are_refused
        (program ∷ (codes "--table=" ++ table) ∷ (codes "--colours=" ++ colours) ∷ codes "--" ∷ file ∷ []) ≡ true }
    ensures no_colours { (program catalogue table file : List ℕ) → are_refused
        (program ∷ (codes "--catalogue=" ++ catalogue) ∷ (codes "--table=" ++ table) ∷ codes "--" ∷ file ∷ []) ≡ true }
    ensures no_file { (program catalogue table colours : List ℕ) →
        are_refused (words_naming program catalogue table colours []) ≡ true }
    ensures twice { (program catalogue table colours other file : List ℕ) → are_refused
        (words_naming program catalogue table colours ((codes "--table=" ++ other) ∷ codes "--" ∷ file ∷ [])) ≡ true }
    ensures unasked { (program catalogue table colours : List ℕ) →
        ask (words_naming program catalogue table colours []) ≡ false }
{}
