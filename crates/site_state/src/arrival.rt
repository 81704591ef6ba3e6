//! What arrived from a sender.

use rep_calls::{PastEntry, Txn};
use rep_lists::Items;

/// What came from a sender: its position in the stream, its number in the sender's queue, the position that it depends on, 0
/// for none, what the sender had seen of the other masters before it, and the transaction.
#[derive(Drop)]
pub struct Arrival {
    pub position: u64,
    pub number: u64,
    pub dep: u64,
    pub past: Items<PastEntry>,
    pub txn: Txn,
}
