//! Lemmas that several crates prove with, and no code: what a choice or an optional value tells (`Choices`), what is
//! true of texts of decimal digits (`Digits`), and of the elements of lists and of lists in a strict order (`Members`).
#![tactic(auto)]
