//! The queue of a site.
ghost use Rattle.std.specs.Prelude.{◌≡◌, ◌↔◌, ◌+◌, ◌-◌, ◌≤◌, ◌<◌, [], ◌∷◌, false, length, map, reverse, vec_len, vec_capacity, IfOk, IfSome, OnOk, IsTrue, Some, option_copied, slice_get};
ghost use Rattle.std.specs.Option.{option_map};
ghost use Rattle.std.specs.List.{AllByRecursion, filter};
ghost use Rattle.deferred_queue.specs.Streams.{CanBeSent, DestinationsApart, in_order, at_position, queue_stream_to, stream_place, unpurged, purged, numbered, last_position, acked_by, raised_mark};
ghost use Rattle.packet_code.specs.Bodies.{IsBody};
ghost use Rattle.deferred_queue.specs.QueueState.{Falls, entry_of, kept_of, is_unpassed};
ghost use Rattle.deferred_queue.specs.Spans.{Covers};

use crate::entries::{Entry, place_with};
use crate::loaded::Loaded;
use crate::queued_txn::QueuedTxn;
use crate::span::{Span, goes, passed_since};
use crate::stream::Stream;
use crate::streams::{
    acked_to, can_go_to_each, entry_to, extend_each, last_to, new_each, place_to, raise_each,
    reserve_each, sweep_each,
};
use crate::{Destination, Place, Queued, Sent};
use packet_code::Body;
use rep_calls::{PastEntry, Txn};
use rep_lists::{Items, NoMemory};
use rep_values::SiteName;
use std::alloc::Global;
use std::marker::Model;

/// The transactions that were queued and aren't purged, in the order of their numbers, the streams to the destinations,
/// and how many were queued at the last purge.
#[derive(Drop)]
pub struct Queue {
    count: u64,
    swept: u64,
    cargoes: Vec<Entry<Loaded>>,
    streams: Vec<Stream>,
}

impl Model for Queue {
    ghost use Rattle.std.specs.Prelude.{◌-◌, ◌^◌, min, reverse, vec_len, vec_capacity};
    ghost use Rattle.deferred_queue.specs.Streams.{Deferrals};
    ghost use Rattle.deferred_queue.specs.QueueState.{IsQueue, kept_of, rooms_of, stream_marks, queued, queued_txns_to};
    ghost use Rattle.rep_lists.specs.Counting.{least};

    ghost Value = { Deferrals };

    ghost view = { λ q. record {
      deferred = queued (kept_of q.streams.items) (queued_txns_to q.count (reverse q.cargoes.items));
      marks = stream_marks (kept_of q.streams.items);
      spare = least (min (vec_capacity q.cargoes - vec_len q.cargoes) (2 ^ 64 - 1 - q.count)) (rooms_of q.streams.items);
    } };

    ghost invariant = { λ q. IsQueue q.count q.swept q.streams.items (reverse q.cargoes.items) };
}

/// The entry of the transaction with a number.
fn entry_with(cargoes: &[Entry<Loaded>], number: u64) -> Option<&Entry<Loaded>>
    requires { Falls (reverse cargoes.now) }
    ensures { option_copied result ≡ entry_of number (reverse cargoes.now) }
{
    let place = place_with(cargoes, number)?;
    Some(&cargoes[place])
}

fn entry_at(cargoes: &[Entry<Loaded>], place: u64) -> Option<&Entry<Loaded>>
    ensures { option_copied result ≡ slice_get cargoes.now place }
{
    cargoes.get(place as usize)
}

/// Lets go of the transactions that each stream has passed, whose numbers lie in a span.
fn let_go(cargoes: &mut Vec<Entry<Loaded>>, streams: &[Stream], span: Span)
    requires { AllByRecursion (λ (e : Entry QueuedTxn). is_unpassed (kept_of streams.now) e.number ≡ false → Covers span e.number) (reverse cargoes.old.items) }
    ensures items { reverse cargoes.new.items ≡ filter (λ (e : Entry QueuedTxn). is_unpassed (kept_of streams.now) e.number) (reverse cargoes.old.items) }
    ensures bound { vec_len cargoes.new ≤ vec_len cargoes.old }
    ensures capacity { vec_capacity cargoes.new ≡ vec_capacity cargoes.old }
{
    if span.is_empty() {
        return;
    }
    cargoes.retain(|entry| !goes(streams, span, entry.number));
}

impl Queue {
    /// Nothing is queued for these destinations, and nothing acknowledged.
    pub fn make(alloc: Global, destinations: &[SiteName]) -> Result<Queue, NoMemory>
        ensures deferred { IfOk result (λ queue. queue.deferred ≡ []) }
        ensures marks { IfOk result (λ queue. queue.marks ≡ map (λ site. record { site = site; acked = 0 }) destinations.now) }
    {
        let streams = new_each(alloc, destinations)?;
        Ok(Queue {
            count: 0,
            swept: 0,
            cargoes: Vec::new(alloc),
            streams,
        })
    }

    /// Takes the room to queue one more transaction.
    pub fn reserve(&mut self) -> Result<(), NoMemory>
        ensures ok { OnOk result (1 ≤ self.new.spare) }
        ensures deferred { self.new.deferred ≡ self.old.deferred }
        ensures marks { self.new.marks ≡ self.old.marks }
        ensures spare { self.old.spare ≤ self.new.spare }
    {
        // Each transaction needs a number of its own, also where earlier ones were purged.
        if self.count == u64::MAX {
            return Err(NoMemory);
        }
        self.cargoes.reserve(1)?;
        reserve_each(&mut self.streams)?;
        Ok(())
    }

    /// Whether each of these is a destination of the queue, and depends on a position that its stream has or on none.
    pub fn can_send(&self, to: &[Destination]) -> bool
        ensures { IsTrue result ↔ AllByRecursion (CanBeSent self.now) to.now }
    {
        can_go_to_each(&self.streams, to)
    }

    /// Queues a transaction, with what the site had seen before it, for its destinations, and answers its number: the
    /// count of transactions, purged ones included. It takes no memory.
    pub fn push_back(
        &mut self,
        txn: Txn,
        past: Items<PastEntry>,
        body: Body,
        to: &[Destination],
    ) -> u64
        requires body { IsBody past txn body }
        requires room { 1 ≤ self.old.spare }
        requires destinations { AllByRecursion (CanBeSent self.old) to.now }
        requires apart { DestinationsApart to.now }
        ensures number { result ≡ length self.old.deferred + 1 }
        ensures deferred { self.new.deferred ≡ record {
          cargo = Some (record { txn = txn; past = past });
          to = in_order self.old.marks to.now;
        } ∷ self.old.deferred }
        ensures marks { self.new.marks ≡ self.old.marks }
        ensures spare { self.old.spare ≤ self.new.spare + 1 }
    {
        let number = self.count + 1;
        let value = Loaded::of(QueuedTxn { txn, past }, body);
        self.cargoes.push_reserved(Entry { number, value });
        extend_each(&mut self.streams, to, number);
        self.count = number;
        number
    }

    /// The transaction at a position of a stream; None exactly where no such position was given or it was purged.
    pub fn entry(&self, to: &SiteName, position: u64) -> Option<Sent<'_>>
        ensures sent { option_map (λ sent. record {
          number = sent.number;
          dep = sent.dep;
          cargo = Some (record { txn = sent.txn.now; past = sent.past.now });
        }) result
            ≡ unpurged (at_position position (queue_stream_to to.now self.now.deferred)) }
        ensures earlier { IfSome result (λ sent. sent.dep < position) }
        ensures body { IfSome result (λ sent. IsBody sent.past.now sent.txn.now sent.body.now) }
    {
        let entry = entry_to(&self.streams, to, position)?;
        let kept = entry_with(&self.cargoes, entry.number)?;
        Some(Sent {
            number: entry.number,
            dep: entry.value,
            past: kept.value.past(),
            txn: kept.value.txn(),
            body: kept.value.body(),
        })
    }

    /// Where a transaction stands in the stream to a site, purged or not; None exactly where it doesn't go to it.
    pub fn place_of(&self, to: &SiteName, number: u64) -> Option<Place>
        ensures { result ≡ stream_place number (queue_stream_to to.now self.now.deferred) }
    {
        place_to(&self.streams, to, number)
    }

    /// The transactions that aren't purged in rising number, places from 0; None exactly where the place is at or
    /// behind their end.
    pub fn entry_in_order(&self, place: u64) -> Option<Queued<'_>>
        ensures { option_map (λ queued. record {
          number = queued.number;
          cargo = record { txn = queued.txn.now; past = queued.past.now };
        }) result
            ≡ at_position (place + 1) (numbered self.now.deferred) }
    {
        let entry = entry_at(&self.cargoes, place)?;
        Some(Queued {
            number: entry.number,
            past: entry.value.past(),
            txn: entry.value.txn(),
        })
    }

    /// Takes in a mark. One that is lower than an earlier mark changes nothing. It takes no memory.
    pub fn acknowledge(&mut self, to: &SiteName, mark: u64)
        requires { mark ≤ last_position to.now self.old.deferred }
        ensures deferred { self.new.deferred ≡ self.old.deferred }
        ensures marks { self.new.marks ≡ map (raised_mark to.now mark) self.old.marks }
        ensures spare { self.new.spare ≡ self.old.spare }
    {
        raise_each(&mut self.streams, to, mark);
    }

    /// Lets go of the transactions that each of their destinations has acknowledged, those without one among them, and
    /// answers how many they were. It takes no memory, and positions, numbers and dependencies stay.
    pub fn purge(&mut self) -> u64
        ensures deferred { self.new.deferred ≡ purged self.old.marks self.old.deferred }
        ensures count { length (numbered self.new.deferred) + result ≡ length (numbered self.old.deferred) }
        ensures marks { self.new.marks ≡ self.old.marks }
        ensures spare { self.old.spare ≤ self.new.spare }
    {
        let before = self.cargoes.len();
        let span = passed_since(&self.streams, self.swept, self.count);
        let_go(&mut self.cargoes, &self.streams, span);
        sweep_each(&mut self.streams);
        self.swept = self.count;
        (before - self.cargoes.len()) as u64
    }

    /// The last position of the stream to a site, 0 where nothing was queued for it.
    pub fn last(&self, to: &SiteName) -> u64
        ensures { result ≡ last_position to.now self.now.deferred }
    {
        last_to(&self.streams, to)
    }

    /// The position up to which a site has acknowledged its stream.
    pub fn acked(&self, to: &SiteName) -> u64
        ensures { result ≡ acked_by to.now self.now.marks }
    {
        acked_to(&self.streams, to)
    }

    /// How many positions of the stream to a site aren't acknowledged.
    pub fn waiting(&self, to: &SiteName) -> u64
        ensures { result ≡ last_position to.now self.now.deferred - acked_by to.now self.now.marks }
    {
        last_to(&self.streams, to) - acked_to(&self.streams, to)
    }
}
