//! A file of records behind a checkpoint: each record is whole or absent, whatever a crash leaves.
//!
//! Such a file is a bank. Its bytes are, in order:
//!
//! - the layout, one byte, 0;
//! - the length of the checkpoint in seven bytes, the most significant first, and the checkpoint;
//! - of each record: an open gate, which is a byte whose lowest bit is 1, the length of the body in four bytes, the
//!   most significant first, and the body;
//! - a closed gate, which is a byte whose lowest bit is 0. What stands behind it doesn't count.
//!
//! A file of at most nine bytes is the empty bank, whatever they are. A record is written behind the closed gate, with
//! a closed gate behind it, and synced; only then is the gate before it opened, and synced. So no crash leaves a part
//! of a record that counts.
#![tactic(auto)]

mod bank;
mod content;
mod fault;
mod framing;
mod laws;
mod opening;
mod reading;
mod whole;

pub use bank::Bank;
pub use content::BankContent;
pub use fault::{AppendFault, BankFault};
pub use framing::{Framed, frame};
pub use laws::banks_are_read;
pub use opening::open_bank;
pub use whole::write_through;
