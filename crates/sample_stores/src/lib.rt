//! Sample stores, over which commands, the disk and crashes are tested across crates.
//!
//! The tests hold what `chart_store`, `bank_journal` and `chart_ports` answer, keep and leave against numbers, names,
//! bytes and places that were worked out by hand. `chart_store` has no tests of its own, since it would be proved again
//! for them; this crate is tests alone, and is proved once.
//!
//! A command is a few records of a small cell (`files`), and a bank is a few pieces (`banks`). What is answered and
//! what is held is compared as a text (`texts`), on a desk in memory or in a folder (`stores`), and a
//! file is taken over in steps, with other work between them (`runs`). A test is a table of
//! commands, moments or bytes, each with what has to come of it.
#![tactic(auto)]

#[cfg(test)]
mod banks;
#[cfg(test)]
mod files;
#[cfg(test)]
mod runs;
#[cfg(test)]
mod stores;
#[cfg(test)]
mod tests;
#[cfg(test)]
mod texts;
