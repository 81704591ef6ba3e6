//! Where a transaction stands in a stream.

use rep_values::SiteName;

/// The site that sent a transaction, and the position of the transaction in the stream to the receiver.
#[derive(Clone, Copy)]
pub struct StreamPosition {
    pub from: SiteName,
    pub position: u64,
}
