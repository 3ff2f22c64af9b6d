//! Tests of pictures of charts, across crates.
//!
//! Charts are rows of `sample_rows`, and drawings are written out, so that a document can be worked out by hand from the
//! rules of `chart_svg`, byte for byte.
#![tactic(auto)]

#[cfg(test)]
mod tests;
