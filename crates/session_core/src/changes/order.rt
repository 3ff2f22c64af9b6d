//! What a line orders: a command, and the reply that follows it.
//!
//! `load`, `make` and `reissue` all give the store a file to load, so the command alone doesn't tell the reply. That is
//! made of what the command did, once it is accepted: the numbers that are held then stand in it.

ghost use Rattle.std.specs.Prelude.{◌≡◌};
ghost use Rattle.session_core.specs.Order.{drop_order, reply_to, rollback_order};

use chart_model::{Command, Key};
use chart_store::Accepted;
use script_reader::Reply;

/// Which line is replied to, where its command is accepted.
#[derive(Clone, Copy, Debug)]
pub enum Success {
    /// A file was taken over, or has cancelled its cell.
    Load,
    /// A cell went back to an update.
    Rollback,
    /// A cell was taken away.
    Drop,
    /// A file that was staged was taken over, or has cancelled its cell.
    Commit,
    /// A file of so many data records was made and taken over.
    Make(u64),
    /// A chart was written and taken over.
    Reissue,
}

/// A command that a line stands for, and which reply follows it.
#[derive(Debug, Drop)]
pub struct Order {
    pub command: Command,
    pub success: Success,
}

impl Success {
    /// The reply, by what the command did.
    pub fn reply(self, done: &Accepted) -> Reply
        ensures { result ≡ reply_to self done.now.key done.now.held }
    {
        let (key, held) = (done.key, done.held);
        match self {
            Success::Load => {
                if held.cancelled {
                    Reply::Cancel(key)
                } else {
                    Reply::Load(key, held.edition, held.update)
                }
            }
            Success::Rollback => Reply::Rollback(key, held.edition, held.update),
            Success::Drop => Reply::Drop(key),
            Success::Commit => {
                if held.cancelled {
                    Reply::Cancel(key)
                } else {
                    Reply::Commit(key, held.edition, held.update)
                }
            }
            Success::Make(records) => Reply::Make(key, held.edition, held.update, records),
            Success::Reissue => Reply::Reissue(key, held.edition, held.update),
        }
    }
}

/// What the line `rollback` orders.
pub fn rollback_order(key: Key, update: u32) -> Order
    ensures { result ≡ rollback_order key update }
{
    Order {
        command: Command::Rollback(key, update),
        success: Success::Rollback,
    }
}

/// What the line `drop` orders.
pub fn drop_order(key: Key) -> Order
    ensures { result ≡ drop_order key }
{
    Order {
        command: Command::Drop(key),
        success: Success::Drop,
    }
}
