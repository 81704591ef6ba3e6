//! What arrived is applied.
ghost use Rattle.std.specs.Prelude.{◌≡◌, ℕ, ◌+◌, ◌<◌, ◌≤◌, ◌^◌, take, None, Some, IfOk, IfSome, OnOk, OnErr};
ghost use Rattle.std.specs.List.{AllByRecursion};
ghost use Rattle.rep_lists.specs.Rising.{IsRising};
ghost use Rattle.site_state.specs.State.{SenderState, sender_of, arrivals};
ghost use Rattle.site_state.specs.Arrivals.{CanPass};
ghost use Rattle.site_state.specs.Ready.{stale_of, first_ready};
ghost use Rattle.site_state.specs.Steps.{begun};
ghost use Rattle.site_state.specs.Passes.{site_apply, apply_answer, apply_each, site_pass, pass_answer, is_done, is_error, added_count};
ghost use Rattle.sender_inbox.specs.Incoming.{by_position, IsFirstAbove};
ghost use Rattle.sender_inbox.specs.Steps.{done_by, errors_by};
ghost use Rattle.site_engine.specs.Applying.{onward_past};
ghost use Rattle.site_engine.specs.Working.{EndsHere};

use super::Site;
use crate::applying::apply_arrival;
use rep_calls::PastEntry;
use rep_lists::{Items, NoMemory};
use rep_schema::RowStore;
use rep_values::SiteName;
use schema_names::is_master_site;
use sender_inbox::{Step, add_error, counted, inbox_from, place_from, reserve_position};
use site_state::{Applied, PassCount};
use std::alloc::Global;
use txn_apply::Ending;

impl<R: RowStore> Site<R> {
    /// What the site had seen, where it sends on what came from an origin; else None.
    pub(super) fn past_onward(
        &self,
        alloc: Global,
        origin: &SiteName,
    ) -> Result<Option<Items<PastEntry>>, NoMemory>
        ensures { IfOk result (λ past. past ≡ onward_past origin.now self.now) }
    {
        if !self.here.is_master
            || is_master_site(self.store.schema(), origin)
            || !self.outbox.has_open()
        {
            return Ok(None);
        }
        let past = self.past(alloc)?;
        Ok(Some(past))
    }

    /// What arrived from a sender stands in rising order of position.
    pub(super) fn arrivals_rise(&self, origin: &SiteName)
        ensures { (s : SenderState) → sender_of origin.now self.now.senders ≡ Some s → IsRising by_position s.arrived }
    {
        if let Some(inbox) = inbox_from(&self.inboxes, origin) {
            inbox.laws();
        }
    }

    /// Applies a position that is ready, which ends as it was evaluated before where it was.
    pub(super) fn apply_ready(
        &mut self,
        alloc: Global,
        origin: &SiteName,
        position: u64,
        ending: Option<Ending>,
    ) -> Result<Applied, NoMemory>
        requires ready { stale_of origin.now position self.old ≡ None }
        requires ending { IfSome ending (EndsHere origin.now position self.old) }
        ensures ok { OnOk result (self.new ≡ site_apply origin.now position self.old) }
        ensures answer { IfOk result (λ answer. answer ≡ apply_answer origin.now position self.old) }
        ensures err { OnErr result (self.new ≡ self.old) }
    {
        self.arrivals_rise(origin);
        let past = self.past_onward(alloc, origin)?;
        let Some(place) = place_from(&self.inboxes, origin) else {
            unreachable!()
        };
        let inbox = &mut self.inboxes[place];
        // The room comes first, so that what follows the transaction can't fail.
        reserve_position(&mut self.journal, &mut self.errors, inbox)?;
        let Some(arrival) = inbox.find(position) else {
            unreachable!()
        };
        let step = apply_arrival(
            alloc,
            &mut self.store,
            &mut self.counters,
            &mut self.outbox,
            &mut self.notes,
            self.moment,
            past,
            origin,
            arrival,
            ending,
        )?;
        let Step {
            entry,
            answer,
            error,
        } = step;
        inbox.finish(position);
        self.journal.push(entry);
        add_error(&mut self.errors, error);
        Ok(answer)
    }

    /// Applies a position of a sender, where it is ready. It is then finished, as done or in error, and journalled; an error
    /// holds the whole transaction, and nothing of it is applied. Where there is no memory, all is as before.
    pub fn apply_one(
        &mut self,
        alloc: Global,
        origin: &SiteName,
        position: u64,
    ) -> Result<Applied, NoMemory>
        ensures ok { OnOk result (self.new ≡ site_apply origin.now position self.old) }
        ensures answer { IfOk result (λ answer. answer ≡ apply_answer origin.now position self.old) }
        ensures err { OnErr result (self.new ≡ self.old) }
    {
        if let Some(why) = self.stale(origin, position) {
            return Ok(Applied::Stale(why));
        }
        let applied = self.apply_ready(alloc, origin, position, None)?;
        Ok(applied)
    }

    /// The place of a sender's first position above a number, in rising order; the end where there is none.
    fn arrivals_above(&self, origin: &SiteName, number: u64) -> usize
        ensures place { IsFirstAbove number (arrivals origin.now self.now) result }
        ensures from_one { AllByRecursion (λ a. 1 ≤ a.position) (arrivals origin.now self.now) }
    {
        match inbox_from(&self.inboxes, origin) {
            Some(inbox) => {
                inbox.laws();
                inbox.first_above(number)
            }
            None => 0,
        }
    }

    /// Positions that arrived from a sender are from 1.
    pub fn arrivals_are_from_one(&self, origin: &SiteName)
        ensures { AllByRecursion (λ a. 1 ≤ a.position) (arrivals origin.now self.now) }
    {
        let _ = self.arrivals_above(origin, 0);
    }

    /// What arrived from a sender stands in rising order of position, depends on earlier positions, and has pasts that don't name
    /// the sender: so each packet is that is within all limits.
    pub fn arrivals_can_pass(&self, origin: &SiteName)
        ensures { CanPass origin.now (arrivals origin.now self.now) }
    {
        if let Some(inbox) = inbox_from(&self.inboxes, origin) {
            inbox.laws();
        }
    }

    /// The least ready position of a sender above a number; None exactly where there is none.
    pub fn lowest_ready(&self, origin: &SiteName, above: u64) -> Option<u64>
        ensures { result ≡ first_ready origin.now above self.now }
    {
        // What isn't above the low-water mark is finished.
        let start = self.arrivals_above(origin, above.max(self.mark(origin)));
        let next = self.next_ready(origin, start)?;
        Some(next.position)
    }

    /// Goes on with a pass that was begun: each position that arrived from a sender is applied in rising order, where it is
    /// ready then. It answers how many transactions it finished. Where there is no memory, the positions up to some place are
    /// applied, each whole and journalled, and no later one.
    pub fn finish_pass(&mut self, alloc: Global, origin: &SiteName) -> Result<PassCount, NoMemory>
        ensures ok { OnOk result (self.new ≡ apply_each origin.now (arrivals origin.now self.old) self.old) }
        ensures done { IfOk result (λ count. count.done ≡ added_count is_done self.old self.new) }
        ensures errors { IfOk result (λ count. count.errors ≡ added_count is_error self.old self.new) }
        ensures err { OnErr result ((k : ℕ) × (self.new ≡ apply_each origin.now (take k (arrivals origin.now self.old)) self.old)) }
    {
        let mut count = PassCount { done: 0, errors: 0 };
        // What isn't above the low-water mark is finished.
        let mut place = self.arrivals_above(origin, self.mark(origin));
        while let Some(next) = self.next_ready(origin, place) {
            let applied = self.apply_ready(alloc, origin, next.position, None)?;
            count = counted(count, &applied);
            place = next.behind;
        }
        Ok(count)
    }

    /// A pass for a sender: the moment rises, then each position that arrived is applied in rising order, where it is ready
    /// then. It answers how many transactions it finished. Where there is no memory, the positions up to some place are
    /// applied, each whole and journalled, and no later one.
    pub fn apply_pass(&mut self, alloc: Global, origin: &SiteName) -> Result<PassCount, NoMemory>
        requires { self.old.moment + 1 < 2 ^ 64 }
        ensures ok { OnOk result (self.new ≡ site_pass origin.now self.old) }
        ensures count { IfOk result (λ count. count ≡ pass_answer origin.now self.old) }
        ensures err { OnErr result ((k : ℕ) × (self.new ≡ apply_each origin.now (take k (arrivals origin.now self.old)) (begun self.old))) }
    {
        self.begin_pass();
        let count = self.finish_pass(alloc, origin)?;
        Ok(count)
    }
}
