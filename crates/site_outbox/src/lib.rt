//! What a site sends: its queue, the streams to its destinations, and how far these are open and acknowledged.
#![tactic(auto)]

mod destination_entries;
mod destination_entry;
mod outbox;

pub use outbox::Outbox;
