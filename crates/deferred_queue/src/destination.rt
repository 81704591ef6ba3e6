//! What is told of a queued transaction.
ghost use Rattle.std.specs.Prelude.{◌≡◌, ◌↔◌, IsTrue};
ghost use Rattle.std.specs.Option.{option_map};
ghost use Rattle.deferred_queue.specs.Streams.{destination_to, DestinationsApart};

use packet_code::Body;
use rep_calls::{PastEntry, Txn};
use rep_values::SiteName;

/// A destination of a transaction, and the earlier position of its stream that the transaction depends on, 0 for none.
#[derive(Clone, Copy)]
pub struct Destination {
    pub site: SiteName,
    pub dep: u64,
}

/// The transaction at a position of a stream: its number in the queue, the position that it depends on, what the site had
/// seen of the other masters before it, its calls, and the bytes of both.
#[derive(Clone, Copy)]
pub struct Sent<'a> {
    pub number: u64,
    pub dep: u64,
    pub past: &'a [PastEntry],
    pub txn: &'a Txn,
    pub body: &'a Body,
}

/// Where a transaction stands in a stream: its position, from 1, and the earlier position that it depends on, 0 for none.
#[derive(Clone, Copy)]
pub struct Place {
    pub position: u64,
    pub dep: u64,
}

/// A queued transaction, what the site had seen of the other masters before it, and its number, from 1.
#[derive(Clone, Copy)]
pub struct Queued<'a> {
    pub number: u64,
    pub past: &'a [PastEntry],
    pub txn: &'a Txn,
}

/// The position that a destination depends on, where the site is among the destinations.
pub(crate) fn dep_of(to: &[Destination], site: &SiteName) -> Option<u64>
    ensures { result ≡ option_map (λ d. d.dep) (destination_to site.now to.now) }
{
    for destination in to {
        if destination.site.0.is_same(&site.0) {
            return Some(destination.dep);
        }
    }
    None
}

/// Whether no two of these destinations are the same site.
pub fn are_apart(to: &[Destination]) -> bool
    ensures { IsTrue result ↔ DestinationsApart to.now }
{
    for place in 0..to.len() {
        if dep_of(&to[place + 1..], &to[place].site).is_some() {
            return false;
        }
    }
    true
}
