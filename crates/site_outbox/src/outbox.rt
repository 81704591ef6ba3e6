//! The queue of a site with its destinations.
ghost use Rattle.std.specs.Prelude.{◌≡◌, ◌+◌, ◌-◌, ◌<◌, ◌≤◌, max, [], ◌∷◌, List, length, map, is_some, Some, None, IfOk, IfSome, OnOk, OnErr};
ghost use Rattle.std.specs.Option.{option_map};
ghost use Rattle.std.specs.List.{list_any};
ghost use Rattle.rep_schema.specs.declared.schema.Schema.{Schema};
ghost use Rattle.rep_schema.specs.Shape.{HasShape};
ghost use Rattle.rep_calls.specs.declared.call.Txn.{Txn};
ghost use Rattle.rep_calls.specs.declared.past.PastEntry.{PastEntry};
ghost use Rattle.conflict_detect.specs.Fits.{TxnFits};
ghost use Rattle.conflict_detect.specs.KeysNamed.{HasKeys};
ghost use Rattle.packet_code.specs.Bodies.{IsBody};
ghost use Rattle.deferred_queue.specs.Streams.{at_position, queue_stream_to, unpurged, last_position};
ghost use Rattle.site_state.specs.State.{destination_of, at_destination, opened_in};
ghost use Rattle.site_state.specs.Steps.{is_open};
ghost use Rattle.site_state.specs.Packets.{acknowledged};
ghost use Rattle.site_state.specs.Joining.{opened_at};
ghost use Rattle.site_state.specs.Purges.{acknowledged_by_all};
ghost use Rattle.site_state.specs.Deferrals.{StandApart};
ghost use Rattle.site_state.specs.Making.{new_destination};
ghost use Rattle.site_outbox.specs.Outgoing.{Keeps};
ghost use Rattle.site_outbox.specs.DestinationEntries.{destination_mark};

use crate::destination_entries::{
    acknowledged_by_all, has_open, is_among, new_each, note_each, open_each,
};
use crate::destination_entry::DestinationEntry;
use deferred_queue::{Queue, Sent};
use dependency_index::{Index, tokens_of};
use packet_code::Body;
use rep_calls::{PastEntry, Txn};
use rep_lists::{Items, NoMemory};
use rep_schema::Schema;
use rep_values::SiteName;
use std::alloc::Global;
use std::marker::Model;

/// The transactions that a site queued, the streams to its destinations, what is noted of them, and the number up to which the
/// queue is purged.
#[derive(Drop)]
pub struct Outbox {
    outlets: Vec<DestinationEntry>,
    queue: Queue,
    index: Index,
    count: u64,
    purged: u64,
}

impl Model for Outbox {
    ghost use Rattle.site_outbox.specs.Outgoing.{Outgoing};
    ghost use Rattle.site_outbox.specs.DestinationEntries.{with_marks};
    ghost use Rattle.site_outbox.specs.OutboxInvariant.{IsOutbox};

    ghost Value = { Outgoing };

    ghost view = { λ o. record {
      destinations = with_marks o.outlets.items o.queue.marks;
      purged = o.purged;
      deferred = o.queue.deferred;
      noted = o.index.streams;
    } };

    ghost invariant = { λ o. IsOutbox o.outlets.items o.queue.marks o.queue.deferred o.index.streams o.count o.purged };
}

impl Outbox {
    /// Nothing is queued for these destinations. Each is open, unless it is a late master.
    pub fn make(
        alloc: Global,
        schema: &Schema,
        destinations: &[SiteName],
    ) -> Result<Outbox, NoMemory>
        requires apart { StandApart (map (new_destination schema.now) destinations.now) }
        ensures destinations { IfOk result (λ out. out.destinations ≡ map (new_destination schema.now) destinations.now) }
        ensures purged { IfOk result (λ out. out.purged ≡ 0) }
        ensures keeps { IfOk result (Keeps schema.now [] []) }
    {
        let outlets = new_each(alloc, schema, destinations)?;
        let queue = Queue::make(alloc, destinations)?;
        let index = Index::make(alloc, destinations)?;
        Ok(Outbox {
            outlets,
            queue,
            index,
            count: 0,
            purged: 0,
        })
    }

    /// Queues a transaction, with what the site had seen before it, for each destination that is open, and answers its
    /// number.
    pub fn push(
        &mut self,
        alloc: Global,
        schema: &Schema,
        past: Items<PastEntry>,
        txn: Txn,
    ) -> Result<u64, NoMemory>
        requires shape { HasShape schema.now }
        requires keys { HasKeys schema.now }
        requires fits { TxnFits schema.now txn }
        ensures number { IfOk result (λ number. number ≡ length self.old.deferred + 1) }
        ensures ok { OnOk result ((pasts : List (List PastEntry)) (txns : List Txn) → Keeps schema.now pasts txns self.old → Keeps schema.now (past ∷ pasts) (txn ∷ txns) self.new) }
        ensures err { OnErr result ((pasts : List (List PastEntry)) (txns : List Txn) → Keeps schema.now pasts txns self.old → Keeps schema.now pasts txns self.new) }
        ensures destinations { self.new.destinations ≡ self.old.destinations }
        ensures purged { self.new.purged ≡ self.old.purged }
    {
        // Each transaction needs a number of its own, also where earlier ones were purged.
        if self.count == u64::MAX {
            return Err(NoMemory);
        }
        // The room comes first, so that what follows can't fail.
        let tokens = tokens_of(alloc, schema, &txn)?;
        let mut to = Vec::with_capacity(alloc, self.outlets.len())?;
        let body = Body::of(alloc, past.as_slice(), &txn)?;
        self.index.reserve(&tokens)?;
        self.queue.reserve()?;
        note_each(&self.outlets, &tokens, &mut self.index, &mut to);
        let number = self.queue.push_back(txn, past, body, &to);
        self.count = number;
        Ok(number)
    }

    /// The transaction at a position of a stream; None exactly where no such position was given or it is purged.
    pub fn entry(&self, to: &SiteName, position: u64) -> Option<Sent<'_>>
        ensures sent { option_map (λ sent. record {
          number = sent.number;
          dep = sent.dep;
          cargo = Some (record { txn = sent.txn.now; past = sent.past.now });
        }) result
            ≡ unpurged (at_position position (queue_stream_to to.now self.now.deferred)) }
        ensures earlier { IfSome result (λ sent. sent.dep < position) }
        ensures number { IfSome result (λ sent. 1 ≤ sent.number) }
        ensures queued { IfSome result (λ sent. sent.number ≤ length self.now.deferred) }
        ensures body { IfSome result (λ sent. IsBody sent.past.now sent.txn.now sent.body.now) }
    {
        self.queue.entry(to, position)
    }

    /// Opens the stream to a destination: it gets each transaction that is queued from now on. Where it is open already, or the
    /// site is no destination, nothing changes. It takes no memory.
    pub fn open(&mut self, site: &SiteName)
        requires empty { opened_in (destination_of site.now self.old.destinations) ≡ None → last_position site.now self.old.deferred ≡ 0 }
        ensures destinations { self.new.destinations ≡ at_destination site.now (opened_at (length self.old.deferred)) self.old.destinations }
        ensures deferred { self.new.deferred ≡ self.old.deferred }
        ensures keeps { (schema : Schema) (pasts : List (List PastEntry)) (txns : List Txn) → Keeps schema pasts txns self.old → Keeps schema pasts txns self.new }
        ensures purged { self.new.purged ≡ self.old.purged }
    {
        let count = self.count;
        open_each(&mut self.outlets, site, count);
    }

    /// Takes in a mark. One that is lower than an earlier mark changes nothing. It takes no memory.
    pub fn acknowledge(&mut self, site: &SiteName, mark: u64)
        requires { mark ≤ last_position site.now self.old.deferred }
        ensures destinations { self.new.destinations ≡ at_destination site.now (acknowledged mark) self.old.destinations }
        ensures keeps { (schema : Schema) (pasts : List (List PastEntry)) (txns : List Txn) → Keeps schema pasts txns self.old → Keeps schema pasts txns self.new }
        ensures purged { self.new.purged ≡ self.old.purged }
    {
        self.queue.acknowledge(site, mark);
    }

    /// Lets go of what every destination that has it has acknowledged, and answers how many transactions these are.
    pub fn purge(&mut self) -> u64
        ensures purged { self.new.purged ≡ max self.old.purged (acknowledged_by_all (length self.old.deferred) self.old.destinations) }
        ensures count { result ≡ self.new.purged - self.old.purged }
        ensures destinations { self.new.destinations ≡ self.old.destinations }
        ensures keeps { (schema : Schema) (pasts : List (List PastEntry)) (txns : List Txn) → Keeps schema pasts txns self.old → Keeps schema pasts txns self.new }
    {
        let before = self.purged;
        let acknowledged = acknowledged_by_all(&self.outlets, &self.queue, self.count);
        self.queue.purge();
        self.purged = before.max(acknowledged);
        self.purged - before
    }

    /// The last position of the stream to a site, 0 where nothing was queued for it.
    pub fn last(&self, to: &SiteName) -> u64
        ensures { result ≡ last_position to.now self.now.deferred }
    {
        self.queue.last(to)
    }

    /// How many transactions were queued so far, purged ones among them.
    pub fn count(&self) -> u64
        ensures { result ≡ length self.now.deferred }
    {
        self.count
    }

    /// Whether a site is a destination.
    pub fn is_destination(&self, site: &SiteName) -> bool
        ensures { result ≡ is_some (destination_of site.now self.now.destinations) }
    {
        is_among(&self.outlets, site)
    }

    /// Whether some destination is open.
    pub fn has_open(&self) -> bool
        ensures { result ≡ list_any is_open self.now.destinations }
    {
        has_open(&self.outlets)
    }

    /// The queue.
    pub fn queue(&self) -> &Queue
        ensures deferred { result.now.deferred ≡ self.now.deferred }
        ensures marks { result.now.marks ≡ map destination_mark self.now.destinations }
    {
        &self.queue
    }

    /// What always holds: no two destinations are the same site.
    pub fn laws(&self)
        ensures { StandApart self.now.destinations }
    {
        let _outlets = &self.outlets;
    }
}
