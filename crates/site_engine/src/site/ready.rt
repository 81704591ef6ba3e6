//! What a site has of its senders, and what of it is ready.
ghost use Rattle.std.specs.Prelude.{◌≡◌, ◌<◌, length, map, slice_get, option_copied, IfOk, IfSome, IfNone};
ghost use Rattle.std.specs.List.{list_all};
ghost use Rattle.site_state.specs.State.{arrivals, first_number};
ghost use Rattle.site_state.specs.Journal.{low_water};
ghost use Rattle.site_state.specs.Ready.{covered, is_covered, is_due, stale_of};
ghost use Rattle.site_state.specs.Pasts.{past_of};
ghost use Rattle.site_engine.specs.Looking.{NoneReady, Tells, IsNextReady};

use super::Site;
use crate::looking::{Look, Placed};
use crate::seen::causal_past;
use rep_calls::PastEntry;
use rep_lists::{Items, NoMemory};
use rep_schema::RowStore;
use rep_values::SiteName;
use sender_inbox::{inbox_from, origin_at};
use site_state::{Arrival, Why};
use std::alloc::Global;

impl<R: RowStore> Site<R> {
    /// How many senders the site has.
    pub fn sender_count(&self) -> usize
        ensures { result ≡ length self.now.senders }
    {
        self.inboxes.len()
    }

    /// The sender at a place in declared order; None exactly where the place is at or behind their end.
    pub fn sender(&self, place: usize) -> Option<&SiteName>
        ensures { option_copied result ≡ slice_get (map (λ s. s.origin) self.now.senders) place }
    {
        origin_at(&self.inboxes, place)
    }

    /// The low-water mark of a sender: the greatest number with all of its positions from 1 up to it finished.
    pub fn mark(&self, origin: &SiteName) -> u64
        ensures { result ≡ low_water origin.now self.now.journal }
    {
        match inbox_from(&self.inboxes, origin) {
            Some(inbox) => inbox.low_water(),
            None => 0,
        }
    }

    /// How many positions of a sender arrived.
    pub fn arrived(&self, origin: &SiteName) -> u64
        ensures { result ≡ length (arrivals origin.now self.now) }
    {
        match inbox_from(&self.inboxes, origin) {
            Some(inbox) => inbox.len() as u64,
            None => 0,
        }
    }

    /// The first number of a sender: its queue count when this site joined, 0 where this site was there from the start.
    pub fn first_number(&self, origin: &SiteName) -> u64
        ensures { result ≡ first_number origin.now self.now }
    {
        match inbox_from(&self.inboxes, origin) {
            Some(inbox) => inbox.first(),
            None => 0,
        }
    }

    /// The covered number of a sender: the queue number of its transaction at the low-water mark, or its first number where
    /// that mark is 0.
    pub fn covered(&self, origin: &SiteName) -> u64
        ensures { result ≡ covered origin.now self.now }
    {
        match inbox_from(&self.inboxes, origin) {
            Some(inbox) => inbox.covered(),
            None => 0,
        }
    }

    /// What the site has seen of the masters among its senders, in rising order of names.
    pub fn past(&self, alloc: Global) -> Result<Items<PastEntry>, NoMemory>
        ensures { IfOk result (λ past. past ≡ past_of self.now) }
    {
        causal_past(alloc, self.store.schema(), &self.inboxes)
    }

    /// Whether what was seen of a master is covered here.
    fn is_covered(&self, seen: &PastEntry) -> bool
        ensures { result ≡ is_covered self.now seen.now }
    {
        seen.origin.0.is_same(&self.here.site.0) || seen.number <= self.covered(&seen.origin)
    }

    /// Whether all that was seen is covered here.
    fn is_past_covered(&self, past: &[PastEntry]) -> bool
        ensures { result ≡ list_all (is_covered self.now) past.now }
    {
        past.iter().all(|seen| self.is_covered(seen))
    }

    /// Whether what an arrival depends on and what its site had seen are finished here.
    fn is_due(&self, origin: &SiteName, arrival: &Arrival) -> bool
        ensures { result ≡ is_due origin.now self.now arrival.now }
    {
        arrival.dep <= self.mark(origin) && self.is_past_covered(arrival.past.as_slice())
    }

    /// Why a position isn't ready; None where it is.
    pub fn stale(&self, origin: &SiteName, position: u64) -> Option<Why>
        ensures { result ≡ stale_of origin.now position self.now }
    {
        let Some(inbox) = inbox_from(&self.inboxes, origin) else {
            return Some(Why::NotArrived);
        };
        if inbox.is_finished(position) {
            return Some(Why::Finished);
        }
        let Some(arrival) = inbox.find(position) else {
            return Some(Why::NotArrived);
        };
        if !self.is_due(origin, arrival) {
            return Some(Why::NotReady);
        }
        None
    }

    /// Looks at what arrived from a sender at a place. Where its past isn't covered here and pasts rise from its position on, those
    /// of all behind it aren't covered either.
    fn look(&self, origin: &SiteName, place: usize) -> Look
        requires { place < length (arrivals origin.now self.now) }
        ensures { Tells origin.now self.now place result }
    {
        let Some(inbox) = inbox_from(&self.inboxes, origin) else {
            unreachable!()
        };
        inbox.laws();
        let arrival = inbox.arrival_at(place);
        if inbox.is_finished(arrival.position) {
            return Look::Waits;
        }
        if inbox.low_water() < arrival.dep {
            return Look::Waits;
        }
        if self.is_past_covered(arrival.past.as_slice()) {
            return Look::Ready(arrival.position);
        }
        if inbox.pasts_rise_from() <= arrival.position {
            return Look::Ends;
        }
        Look::Waits
    }

    /// The first position of a sender from a place on that is ready; None exactly where there is none.
    pub(super) fn next_ready(&self, origin: &SiteName, start: usize) -> Option<Placed>
        ensures some { IfSome result (IsNextReady origin.now self.now start) }
        ensures none { IfNone result (NoneReady origin.now self.now start (length (arrivals origin.now self.now))) }
    {
        for place in start..self.arrived(origin) as usize {
            match self.look(origin, place) {
                Look::Ready(position) => {
                    return Some(Placed {
                        position,
                        behind: place + 1,
                    });
                }
                Look::Ends => return None,
                Look::Waits => {}
            }
        }
        None
    }
}
