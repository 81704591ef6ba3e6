//! An error of an error queue.

use rep_calls::Txn;
use rep_values::{ApplyError, SiteName};

/// An error that stands: the call that failed, from 1, why, and the whole transaction.
#[derive(Drop)]
pub struct ErrorEntry {
    pub origin: SiteName,
    pub position: u64,
    pub call: u32,
    pub error: ApplyError,
    pub txn: Txn,
}
