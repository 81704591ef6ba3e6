//! What comes of evaluating a transaction.

use rep_schema::Changes;
use rep_values::{ApplyError, SiteName};

/// How a transaction ends.
#[derive(Drop)]
pub enum Ending {
    /// The rows that change, in order.
    Changed(Changes),
    /// The first call that fails, from 1, and why.
    Failed { call: u32, error: ApplyError },
}

/// How a site's transaction ends.
#[derive(Drop)]
pub struct Outcome {
    pub origin: SiteName,
    /// The transaction's number in the stream from its origin.
    pub position: u64,
    pub ending: Ending,
}
