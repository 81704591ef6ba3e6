//! The queue of a site: its transactions, what it had seen before each, the streams to its destinations, and how far these
//! have acknowledged them.
#![tactic(auto)]

mod destination;
mod entries;
mod laws;
mod loaded;
mod queue;
mod queued_txn;
mod span;
mod stream;
mod streams;

pub use destination::{Destination, Place, Queued, Sent, are_apart};
pub use laws::stream_laws;
pub use queue::Queue;
