//! Transactions that are evaluated away from the site.
ghost use Rattle.std.specs.Prelude.{◌≡◌, false, Some, None, is_some, IfOk, OnOk, OnErr};
ghost use Rattle.rep_laws.specs.Commuting.{IsSound};
ghost use Rattle.site_state.specs.State.{arrived_at};
ghost use Rattle.site_state.specs.Ready.{stale_of};
ghost use Rattle.site_state.specs.Passes.{site_apply, apply_answer};
ghost use Rattle.site_engine.specs.Working.{has_unique, IsWorkOf, EndsHere};

use super::Site;
use dependency_index::has_unique_token;
use rep_lists::NoMemory;
use rep_schema::RowStore;
use rep_values::SiteName;
use row_tables::SharedSchema;
use sender_inbox::inbox_from;
use site_state::{Applied, Arrival};
use std::alloc::Global;
use txn_apply::{Outcome, Work};

impl<R: RowStore> Site<R> {
    /// Whether a position of a sender arrived. It takes no memory.
    pub fn has_arrived(&self, origin: &SiteName, position: u64) -> bool
        ensures { result ≡ is_some (arrived_at origin.now position self.now.senders) }
    {
        let Some(inbox) = inbox_from(&self.inboxes, origin) else {
            return false;
        };
        inbox.has_arrived(position)
    }

    /// Whether what arrived at a position touches a constraint of a table. It takes no memory.
    pub fn has_unique(&self, origin: &SiteName, position: u64) -> bool
        ensures { result ≡ has_unique origin.now position self.now }
    {
        let Some(inbox) = inbox_from(&self.inboxes, origin) else {
            return false;
        };
        let Some(arrival) = inbox.find(position) else {
            return false;
        };
        has_unique_token(self.store.schema(), &arrival.txn)
    }

    /// What arrived at a position that is ready.
    fn ready_arrival(&self, origin: &SiteName, position: u64) -> &Arrival
        requires { stale_of origin.now position self.now ≡ None }
        ensures { arrived_at origin.now position self.now.senders ≡ Some result.now }
    {
        let Some(inbox) = inbox_from(&self.inboxes, origin) else {
            unreachable!()
        };
        let Some(arrival) = inbox.find(position) else {
            unreachable!()
        };
        arrival
    }

    /// The work of a position that is ready and touches no constraint of a table: its transaction, with copies of the rows
    /// that it names, so that it can be evaluated while the site goes on.
    pub fn begin(&self, alloc: Global, origin: &SiteName, position: u64) -> Result<Work, NoMemory>
        requires sound { IsSound self.now.schema }
        requires ready { stale_of origin.now position self.now ≡ None }
        requires plain { has_unique origin.now position self.now ≡ false }
        ensures { IfOk result (IsWorkOf origin.now position self.now) }
    {
        let arrival = self.ready_arrival(origin, position);
        let work = Work::of(alloc, &self.store, origin, position, &arrival.txn)?;
        Ok(work)
    }

    /// The work of such a position, as `begin` makes it, where the site's schema is shared already: it isn't copied.
    pub fn begin_sharing(
        &self,
        alloc: Global,
        schema: &SharedSchema,
        origin: &SiteName,
        position: u64,
    ) -> Result<Work, NoMemory>
        requires schema { schema.now ≡ self.now.schema }
        requires sound { IsSound self.now.schema }
        requires ready { stale_of origin.now position self.now ≡ None }
        requires plain { has_unique origin.now position self.now ≡ false }
        ensures { IfOk result (IsWorkOf origin.now position self.now) }
    {
        let arrival = self.ready_arrival(origin, position);
        let work = Work::sharing(alloc, &self.store, schema, origin, position, &arrival.txn)?;
        Ok(work)
    }

    /// Applies a position that is ready as its work was evaluated, which is as it ends on the rows of now: they are so
    /// where the rows that it names are as they were when the work began. State and answer are those of `apply_one`. Where
    /// there is no memory, all is as before.
    pub fn install(&mut self, alloc: Global, outcome: Outcome) -> Result<Applied, NoMemory>
        requires ready { stale_of outcome.origin outcome.position self.old ≡ None }
        requires ending { EndsHere outcome.origin outcome.position self.old outcome.ending }
        ensures ok { OnOk result (self.new ≡ site_apply outcome.origin outcome.position self.old) }
        ensures answer { IfOk result (λ answer. answer ≡ apply_answer outcome.origin outcome.position self.old) }
        ensures err { OnErr result (self.new ≡ self.old) }
    {
        let Outcome {
            origin,
            position,
            ending,
        } = outcome;
        let applied = self.apply_ready(alloc, &origin, position, Some(ending))?;
        Ok(applied)
    }
}
