//! Scripts over a pair of banks, and files that are opened.

mod bytes;
mod crashes;
mod opening;
mod saves;
mod script;
