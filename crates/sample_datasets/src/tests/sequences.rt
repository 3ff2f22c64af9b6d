//! Sequences worked out by hand.

mod charts;
mod files;
mod judged;
mod lists;
mod words;
