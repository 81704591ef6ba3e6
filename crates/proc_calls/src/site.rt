//! A site of procedures over a store of pages.
ghost use Rattle.std.specs.Prelude.{◌≡◌, length, reverse, slice_get, option_copied, IfOk};
ghost use Rattle.rep_schema.specs.Shape.{AreDistinct};
ghost use Rattle.error_queue.specs.ErrorLists.{in_order};
ghost use Rattle.rep_values.specs.declared.name.SiteName.{SiteName};
ghost use Rattle.site_state.specs.State.{arrivals};
ghost use Rattle.site_state.specs.Arrivals.{CanPass};
ghost use Rattle.site_state.specs.Fits.{SchemaIsKeyed};
ghost use Rattle.site_state.specs.Waited.{IsFinishedOnce};
ghost use Rattle.proc_state.specs.Calls.{AreProcedures};
ghost use Rattle.proc_state.specs.State.{new_proc, as_site, proc_tables, other_masters};
ghost use Rattle.proc_state.specs.Errors.{proc_errors};
ghost use Rattle.proc_state.specs.Fits.{ProcFits};
ghost use Rattle.proc_state.specs.Laws.{FinishesEarlierFirst};

mod calls;
mod errors;
mod passes;
mod ready;
mod receive;
mod send;

use crate::outbox::CallOutbox;
use error_queue::Errors;
use page_tables::PageTables;
use proc_state::Procedure;
use rep_lists::{Items, NoMemory, RoomyList};
use rep_schema::{RowStore, Schema};
use rep_values::SiteName;
use sender_inbox::{Inbox, from_senders};
use site_state::Entry;
use std::alloc::Global;
use std::marker::Model;

/// A site of procedures among other masters: its tables, the journal of the transactions of calls that led to them, what arrived
/// from each master, what it sends to each, and the errors that stand.
#[derive(Drop)]
pub struct ProcSite {
    store: PageTables,
    procedures: Items<Procedure>,
    me: SiteName,
    // The oldest entry comes first.
    journal: RoomyList<Entry>,
    inboxes: Vec<Inbox>,
    outbox: CallOutbox,
    errors: Errors,
}

impl Model for ProcSite {
    ghost use Rattle.std.specs.Prelude.{reverse};
    ghost use Rattle.proc_state.specs.State.{ProcState};
    ghost use Rattle.proc_calls.specs.ProcSiteInvariant.{state_of, ProcSiteHolds};

    ghost Value = { ProcState };

    ghost view = { λ s. state_of s.store.schema s.procedures s.me (reverse s.journal.items) s.inboxes.items s.outbox };

    ghost invariant = { λ s. ProcSiteHolds (state_of s.store.schema s.procedures s.me (reverse s.journal.items) s.inboxes.items s.outbox)
        s.store.tables s.inboxes.items s.outbox s.errors.lists };
}

/// The entry at a place.
fn entry_at(journal: &[Entry], place: u64) -> Option<&Entry>
    ensures { option_copied result ≡ slice_get journal.now place }
{
    journal.get(place as usize)
}

impl ProcSite {
    /// A site of this name among other masters, which stand in declared order, with procedures of the schema. Its tables are
    /// empty, and nothing happened yet.
    pub fn make(
        alloc: Global,
        schema: Schema,
        procedures: Items<Procedure>,
        me: SiteName,
        masters: &[SiteName],
    ) -> Result<ProcSite, NoMemory>
        requires keyed { SchemaIsKeyed schema }
        requires procedures { AreProcedures schema procedures }
        requires distinct { AreDistinct masters.now }
        ensures { IfOk result (λ site. site ≡ new_proc schema procedures me masters.now) }
    {
        let store = PageTables::make(alloc, schema)?;
        let (inboxes, errors) = from_senders(alloc, masters)?;
        let outbox = CallOutbox::make(alloc, masters)?;
        Ok(ProcSite {
            store,
            procedures,
            me,
            journal: RoomyList::new(alloc),
            inboxes,
            outbox,
            errors,
        })
    }

    /// Tables are tables, each transaction at the site is one of calls, and what arrived from a master can be passed. Each position
    /// of each master is finished at most once, and of two positions of a master that share a token the earlier first, where what
    /// arrived from it is well numbered.
    pub fn laws(&self)
        ensures fits { ProcFits self.now }
        ensures passes { (origin : SiteName) → CanPass origin (arrivals origin (as_site self.now)) }
        ensures once { IsFinishedOnce self.now.journal }
        ensures order { FinishesEarlierFirst self.now }
    {
        let _store = &self.store;
    }

    /// The site's name.
    pub fn name(&self) -> &SiteName
        ensures { result.now ≡ self.now.me }
    {
        &self.me
    }

    /// The schema of the tables.
    pub fn schema(&self) -> &Schema
        ensures { result.now ≡ self.now.schema }
    {
        self.store.schema()
    }

    /// The procedures, each of which is named by its place.
    pub fn procedures(&self) -> &[Procedure]
        ensures { result.now ≡ self.now.procedures }
    {
        self.procedures.as_slice()
    }

    /// The other masters, in declared order.
    pub fn masters(&self) -> &[SiteName]
        ensures { result.now ≡ other_masters self.now }
    {
        self.outbox.masters()
    }

    /// The tables.
    pub fn store(&self) -> &PageTables
        ensures tables { result.now.tables ≡ proc_tables self.now }
        ensures schema { result.now.schema ≡ self.now.schema }
    {
        &self.store
    }

    /// The errors that stand.
    pub fn errors(&self) -> &Errors
        ensures { in_order result.now.lists ≡ proc_errors self.now }
    {
        &self.errors
    }

    /// How many entries the journal has.
    pub fn journal_len(&self) -> u64
        ensures { result ≡ length self.now.journal }
    {
        self.journal.len() as u64
    }

    /// The entry at a place of the journal, the oldest at 0; None exactly where the place is at or behind its end.
    pub fn journal(&self, place: u64) -> Option<&Entry>
        ensures { option_copied result ≡ slice_get (reverse self.now.journal) place }
    {
        entry_at(self.journal.as_slice(), place)
    }
}
