//! One site over a store of rows.
ghost use Rattle.std.specs.Prelude.{◌≡◌, ℕ, ◌+◌, ◌<◌, ◌^◌, true, length, map, reverse, slice_get, option_copied, IfOk};
ghost use Rattle.rep_schema.specs.Sites.{senders_of, destinations_of, has_table, is_master_site};
ghost use Rattle.error_queue.specs.ErrorLists.{in_order};
ghost use Rattle.site_state.specs.Contents.{tables_of};
ghost use Rattle.site_state.specs.Commits.{site_clock};
ghost use Rattle.site_state.specs.Deferrals.{deferred_of, deferred_marks};
ghost use Rattle.site_state.specs.Errors.{errors_of};
ghost use Rattle.site_state.specs.Making.{new_site};
ghost use Rattle.change_logs.specs.LogState.{new_log, tables_in};
ghost use Rattle.site_state.specs.Steps.{begun};
ghost use Rattle.site_state.specs.Fits.{SchemaIsKeyed, AreWithin, SnapshotsApart, SiteFits};
ghost use Rattle.site_state.specs.Waited.{FinishesEarlierFirst, IsFinishedOnce};

mod commit;
mod errors;
mod joining;
mod newest;
mod noting;
mod passes;
mod ready;
mod receive;
mod refresh;
mod send;
mod work;

use change_logs::{Notes, tables_of};
use deferred_queue::Queue;
use error_queue::Errors;
use rep_lists::{Items, NoMemory, RoomyList};
use rep_schema::{RowStore, TableSet};
use rep_values::SiteName;
use sender_inbox::{Inbox, from_senders};
use site_outbox::Outbox;
use site_state::Entry;
use snapshot_query::Snapshot;
use std::alloc::Global;
use std::marker::Model;
use std::snapshot;
use txn_effects::{Here, Stamps};
use unique_resolve::Counters;

/// A site: a store of rows with its counters, the rows that it began with, the journal of what led from them to these, what
/// arrived from each sender, what it sends to its destinations, the errors that stand, and what it notes of changed rows.
#[derive(Drop)]
pub struct Site<R: RowStore> {
    store: R,
    counters: Counters,
    here: Here,
    // The store as it was when the site began, or at its last refresh, which only contracts look at.
    base: snapshot::Snapshot<R>,
    // The oldest entry comes first. There is room to drop each error that stands.
    journal: RoomyList<Entry>,
    inboxes: Vec<Inbox>,
    outbox: Outbox,
    errors: Errors,
    notes: Notes,
    stamps: Stamps,
    moment: u64,
}

impl<R: RowStore> Model for Site<R> {
    ghost use Rattle.std.specs.Prelude.{reverse};
    ghost use Rattle.site_state.specs.State.{SiteState};
    ghost use Rattle.site_engine.specs.SiteInvariant.{state_of, SiteHolds};

    ghost Value = { SiteState };

    ghost view = { λ s. state_of (R.schema s.store) s.here (R.tables s.base.value) (reverse s.journal.items) s.inboxes.items s.outbox s.notes s.stamps s.moment };

    ghost invariant = { λ s. SiteHolds (state_of (R.schema s.store) s.here (R.tables s.base.value) (reverse s.journal.items) s.inboxes.items s.outbox s.notes s.stamps s.moment)
        (R.tables s.store) s.counters s.inboxes.items s.outbox s.errors.lists s.journal.spare };
}

/// The entry at a place.
fn entry_at(journal: &[Entry], place: u64) -> Option<&Entry>
    ensures { option_copied result ≡ slice_get journal.now place }
{
    journal.get(place as usize)
}

/// A log of each table of a set, and these snapshots as they are.
fn new_notes(
    alloc: Global,
    logged: &TableSet,
    snapshots: Items<Snapshot>,
) -> Result<Notes, NoMemory>
    requires { (table : ℕ) → has_table logged.now table ≡ true → table < 32 }
    ensures logs { IfOk result (λ notes. notes.logs ≡ map new_log (tables_in logged.now)) }
    ensures snapshots { IfOk result (λ notes. notes.snapshots ≡ snapshots) }
{
    let logs = tables_of(alloc, logged, 32)?;
    Notes::make(alloc, logs.as_slice(), snapshots)
}

impl<R: RowStore> Site<R> {
    /// A site of the store's schema whose rows are the store's, and at which nothing happened yet. Senders and destinations
    /// are those that the schema gives the site, in declared order. It logs the changed rows of some tables, and has these
    /// snapshots.
    pub fn make(
        alloc: Global,
        store: R,
        here: Here,
        senders: &[SiteName],
        destinations: &[SiteName],
        logged: &TableSet,
        snapshots: Items<Snapshot>,
    ) -> Result<Site<R>, NoMemory>
        requires keyed { SchemaIsKeyed (R.schema store) }
        requires master { here.is_master ≡ is_master_site (R.schema store) here.site }
        requires senders { senders.now ≡ senders_of (R.schema store) here.site }
        requires destinations { destinations.now ≡ destinations_of (R.schema store) here.site }
        requires logged { (table : ℕ) → has_table logged.now table ≡ true → table < 32 }
        requires within { AreWithin (R.schema store) snapshots }
        requires apart { SnapshotsApart snapshots }
        ensures { IfOk result (λ site. site ≡ new_site (R.schema store) here logged.now snapshots (R.tables store)) }
    {
        let base = snapshot::Snapshot::of(&store);
        let counters = Counters::make(alloc, store.schema())?;
        let (inboxes, errors) = from_senders(alloc, senders)?;
        let outbox = Outbox::make(alloc, store.schema(), destinations)?;
        let notes = new_notes(alloc, logged, snapshots)?;
        Ok(Site {
            store,
            counters,
            here,
            base,
            journal: RoomyList::new(alloc),
            inboxes,
            outbox,
            errors,
            notes,
            stamps: Stamps { clock: 0, last: 0 },
            moment: 0,
        })
    }

    /// Tables are tables, and each transaction at the site fits the schema. Each position of each sender is finished at most
    /// once, and of two positions of a sender that share a token the earlier first, where what arrived from it is well
    /// numbered.
    pub fn laws(&self)
        ensures fits { SiteFits self.now }
        ensures once { IsFinishedOnce self.now.journal }
        ensures order { FinishesEarlierFirst self.now }
    {
        let _store = &self.store;
    }

    /// The site's name.
    pub fn name(&self) -> &SiteName
        ensures { result.now ≡ self.now.here.site }
    {
        &self.here.site
    }

    /// The tables that the site holds.
    pub fn held(&self) -> &TableSet
        ensures { result.now ≡ self.now.here.tables }
    {
        &self.here.tables
    }

    /// The store of rows.
    pub fn store(&self) -> &R
        ensures tables { R.tables result.now ≡ tables_of self.now }
        ensures schema { R.schema result.now ≡ self.now.schema }
        ensures keyed { SchemaIsKeyed self.now.schema }
    {
        &self.store
    }

    /// The queue.
    pub fn queue(&self) -> &Queue
        ensures deferred { result.now.deferred ≡ deferred_of self.now }
        ensures marks { result.now.marks ≡ deferred_marks self.now }
    {
        self.outbox.queue()
    }

    /// The errors that stand.
    pub fn errors(&self) -> &Errors
        ensures { in_order result.now.lists ≡ errors_of self.now }
    {
        &self.errors
    }

    /// The number of commits with calls, passes begun, executions and drops so far.
    pub fn moment(&self) -> u64
        ensures { result ≡ self.now.moment }
    {
        self.moment
    }

    /// The clock, and the last stamp that was given.
    pub fn stamps(&self) -> Stamps
        ensures { result ≡ self.now.stamps }
    {
        self.stamps
    }

    /// How many entries the journal has.
    pub fn journal_len(&self) -> u64
        ensures { result ≡ length self.now.journal }
    {
        self.journal.len() as u64
    }

    /// The entry at a place of the journal, the oldest at 0; None exactly where the place is at or behind its end.
    pub fn journal(&self, place: u64) -> Option<&Entry>
        ensures { option_copied result ≡ slice_get (reverse self.now.journal) place }
    {
        entry_at(self.journal.as_slice(), place)
    }

    /// Sets the clock.
    pub fn set_clock(&mut self, clock: u64)
        ensures { self.new ≡ site_clock clock self.old }
    {
        self.stamps.clock = clock;
    }

    /// Begins a pass: the moment rises.
    pub fn begin_pass(&mut self)
        requires { self.old.moment + 1 < 2 ^ 64 }
        ensures { self.new ≡ begun self.old }
    {
        self.moment += 1;
    }
}
