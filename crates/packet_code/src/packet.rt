//! What sites send each other.

use rep_calls::{PastEntry, Txn};
use rep_lists::{Copies, Items, NoMemory};
use rep_values::SiteName;
use std::alloc::Global;

/// A packet on its way from one site to another.
#[derive(Drop)]
pub enum Packet {
    /// A transaction: its number in the sender's queue, its position in the stream to the receiver, the position that it
    /// depends on, 0 for none, and what the sender had seen of other masters before it.
    Carry {
        from: SiteName,
        to: SiteName,
        number: u64,
        position: u64,
        dep: u64,
        past: Items<PastEntry>,
        txn: Txn,
    },
    /// The sender has finished all positions of the receiver's stream up to the mark.
    Mark {
        from: SiteName,
        to: SiteName,
        mark: u64,
    },
}

impl Copies for Packet {
    fn copy(&self, alloc: Global) -> Result<Packet, NoMemory> {
        match self {
            Packet::Carry {
                from,
                to,
                number,
                position,
                dep,
                past,
                txn,
            } => Ok(Packet::Carry {
                from: *from,
                to: *to,
                number: *number,
                position: *position,
                dep: *dep,
                past: past.copy(alloc)?,
                txn: txn.copy(alloc)?,
            }),
            Packet::Mark { from, to, mark } => Ok(Packet::Mark {
                from: *from,
                to: *to,
                mark: *mark,
            }),
        }
    }
}
