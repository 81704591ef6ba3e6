//! What arrived is applied.
ghost use Rattle.std.specs.Prelude.{◌≡◌, ℕ, ◌+◌, ◌<◌, ◌^◌, take, None, IfOk, OnOk, OnErr};
ghost use Rattle.site_state.specs.State.{arrivals};
ghost use Rattle.site_state.specs.Ready.{stale_of};
ghost use Rattle.sender_inbox.specs.Steps.{done_by, errors_by};
ghost use Rattle.proc_state.specs.State.{as_site};
ghost use Rattle.proc_state.specs.Passes.{proc_apply, proc_apply_answer, apply_each, proc_pass, proc_pass_answer};

use super::ProcSite;
use crate::arrived::apply_arrival;
use rep_lists::NoMemory;
use rep_values::SiteName;
use sender_inbox::{Step, add_error, counted, place_from, reserve_position};
use site_state::{Applied, PassCount};
use std::alloc::Global;

impl ProcSite {
    /// Applies a position that is ready.
    fn apply_ready(
        &mut self,
        alloc: Global,
        origin: &SiteName,
        position: u64,
    ) -> Result<Applied, NoMemory>
        requires { stale_of origin.now position (as_site self.old) ≡ None }
        ensures ok { OnOk result (self.new ≡ proc_apply origin.now position self.old) }
        ensures answer { IfOk result (λ answer. answer ≡ proc_apply_answer origin.now position self.old) }
        ensures err { OnErr result (self.new ≡ self.old) }
    {
        self.arrivals_rise(origin);
        let Some(place) = place_from(&self.inboxes, origin) else {
            unreachable!()
        };
        let inbox = &mut self.inboxes[place];
        // The room comes first, so that what follows the transaction can't fail.
        reserve_position(&mut self.journal, &mut self.errors, inbox)?;
        let Some(arrival) = inbox.find(position) else {
            unreachable!()
        };
        let step = apply_arrival(
            alloc,
            &mut self.store,
            self.procedures.as_slice(),
            origin,
            arrival,
        )?;
        let Step {
            entry,
            answer,
            error,
        } = step;
        inbox.finish(position);
        self.journal.push(entry);
        add_error(&mut self.errors, error);
        Ok(answer)
    }

    /// Applies a position of a master, where it is ready.
    fn apply_one(
        &mut self,
        alloc: Global,
        origin: &SiteName,
        position: u64,
    ) -> Result<Applied, NoMemory>
        ensures ok { OnOk result (self.new ≡ proc_apply origin.now position self.old) }
        ensures answer { IfOk result (λ answer. answer ≡ proc_apply_answer origin.now position self.old) }
        ensures err { OnErr result (self.new ≡ self.old) }
    {
        if let Some(why) = self.stale(origin, position) {
            return Ok(Applied::Stale(why));
        }
        let applied = self.apply_ready(alloc, origin, position)?;
        Ok(applied)
    }

    /// Applies a position of a master, where it is ready, and counts what becomes of it.
    fn apply_counting(
        &mut self,
        alloc: Global,
        origin: &SiteName,
        position: u64,
        count: PassCount,
    ) -> Result<PassCount, NoMemory>
        requires { count.done + count.errors + 1 < 2 ^ 64 }
        ensures ok { OnOk result (self.new ≡ proc_apply origin.now position self.old) }
        ensures done { IfOk result (λ counted. counted.done ≡ count.done + done_by (proc_apply_answer origin.now position self.old)) }
        ensures errors { IfOk result (λ counted. counted.errors ≡ count.errors + errors_by (proc_apply_answer origin.now position self.old)) }
        ensures err { OnErr result (self.new ≡ self.old) }
    {
        match self.apply_one(alloc, origin, position) {
            Ok(applied) => Ok(counted(count, &applied)),
            Err(error) => Err(error),
        }
    }

    /// A pass for a master: each position that arrived is applied in rising order, where it is ready then. It is finished, as
    /// done or in error, and journalled; an error holds the whole transaction, and nothing of it is applied. The answer is how
    /// many transactions the pass finished. Where there is no memory, the positions up to some place are applied, each whole and
    /// journalled, and no later one.
    pub fn pass(&mut self, alloc: Global, origin: &SiteName) -> Result<PassCount, NoMemory>
        ensures ok { OnOk result (self.new ≡ proc_pass origin.now self.old) }
        ensures count { IfOk result (λ count. count ≡ proc_pass_answer origin.now self.old) }
        ensures err { OnErr result ((k : ℕ) × (self.new ≡ apply_each origin.now (take k (arrivals origin.now (as_site self.old))) self.old)) }
    {
        let mut count = PassCount { done: 0, errors: 0 };
        // What isn't above the low-water mark is finished.
        let start = self.arrivals_above(origin, self.mark(origin));
        for place in start..self.arrived(origin) {
            let position = self.position_at(origin, place);
            count = self.apply_counting(alloc, origin, position, count)?;
        }
        Ok(count)
    }
}
