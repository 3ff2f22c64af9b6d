//! Data sets of small files, and sequences of such files.

mod datasets;
mod sequences;
