//! What is queued under a number.

use rep_calls::{PastEntry, Txn};
use rep_lists::Items;

/// A transaction, and what the site had seen of the other masters before it. A purge lets go of both.
#[derive(Drop)]
pub(crate) struct QueuedTxn {
    pub(crate) txn: Txn,
    pub(crate) past: Items<PastEntry>,
}
