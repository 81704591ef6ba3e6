//! What a site's journal holds.

use rep_calls::Txn;
use rep_values::{ApplyError, SiteName};

/// One entry of a journal. `onward` is the number under which the changed rows were queued for the other masters, 0 where
/// nothing was.
#[derive(Drop)]
pub enum Entry {
    /// A transaction of the site's own, and its number in the queue.
    Local {
        number: u64,
        txn: Txn,
    },
    /// What came from another site was applied.
    Done {
        origin: SiteName,
        position: u64,
        onward: u64,
        txn: Txn,
    },
    /// It couldn't be applied: the call that failed, from 1, and why.
    Error {
        origin: SiteName,
        position: u64,
        call: u32,
        error: ApplyError,
        txn: Txn,
    },
    /// An error was executed again, and went well.
    Executed {
        origin: SiteName,
        position: u64,
        onward: u64,
        txn: Txn,
    },
    /// An error was dropped.
    Dropped {
        origin: SiteName,
        position: u64,
    },
    /// The snapshots got their rows anew, at this moment of the master.
    Refreshed {
        moment: u64,
    },
}
