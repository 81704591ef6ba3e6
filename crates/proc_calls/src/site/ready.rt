//! What a site has of the other masters, and what of it is ready.
ghost use Rattle.std.specs.Prelude.{◌≡◌, ◌<◌, ◌≤◌, length, map, slice_get, is_some, option_copied};
ghost use Rattle.rep_lists.specs.Rising.{IsRising};
ghost use Rattle.std.specs.List.{AllByRecursion, list_any};
ghost use Rattle.deferred_queue.specs.Streams.{last_position, acked_by};
ghost use Rattle.site_state.specs.declared.arrival.Arrival.{Arrival as ArrivalValue};
ghost use Rattle.site_state.specs.State.{SenderState, sender_of, arrivals, arrived_at};
ghost use Rattle.site_state.specs.Journal.{low_water};
ghost use Rattle.site_state.specs.Ready.{stale_of, is_ready};
ghost use Rattle.sender_inbox.specs.Incoming.{by_position, IsFirstAbove};
ghost use Rattle.proc_state.specs.State.{as_site, proc_queue};

use super::ProcSite;
use rep_values::SiteName;
use sender_inbox::{inbox_from, origin_at};
use site_state::Why;

impl ProcSite {
    /// How many other masters the site has.
    pub fn sender_count(&self) -> usize
        ensures { result ≡ length self.now.senders }
    {
        self.inboxes.len()
    }

    /// The master at a place in declared order; None exactly where the place is at or behind their end.
    pub fn sender(&self, place: usize) -> Option<&SiteName>
        ensures { option_copied result ≡ slice_get (map (λ s. s.origin) self.now.senders) place }
    {
        origin_at(&self.inboxes, place)
    }

    /// The low-water mark of a master: the greatest number with all of its positions from 1 up to it finished.
    pub fn mark(&self, origin: &SiteName) -> u64
        ensures { result ≡ low_water origin.now self.now.journal }
    {
        match inbox_from(&self.inboxes, origin) {
            Some(inbox) => inbox.low_water(),
            None => 0,
        }
    }

    /// The last position of the stream to a master, 0 where nothing was queued for it.
    pub fn last(&self, to: &SiteName) -> u64
        ensures { result ≡ last_position to.now (proc_queue self.now) }
    {
        self.outbox.last(to)
    }

    /// The position up to which a master has acknowledged its stream.
    pub fn acked(&self, to: &SiteName) -> u64
        ensures { result ≡ acked_by to.now self.now.acked }
    {
        self.outbox.acked(to)
    }

    /// What arrived from a master stands in rising order of position.
    pub(super) fn arrivals_rise(&self, origin: &SiteName)
        ensures { (s : SenderState) → sender_of origin.now self.now.senders ≡ Some s → IsRising by_position s.arrived }
    {
        if let Some(inbox) = inbox_from(&self.inboxes, origin) {
            inbox.laws();
        }
    }

    /// How many positions of a master arrived.
    pub(super) fn arrived(&self, origin: &SiteName) -> usize
        ensures { result ≡ length (arrivals origin.now (as_site self.now)) }
    {
        match inbox_from(&self.inboxes, origin) {
            Some(inbox) => inbox.len(),
            None => 0,
        }
    }

    /// Whether a position of a master arrived. It takes no memory.
    pub fn has_arrived(&self, origin: &SiteName, position: u64) -> bool
        ensures { result ≡ is_some (arrived_at origin.now position self.now.senders) }
    {
        let Some(inbox) = inbox_from(&self.inboxes, origin) else {
            return false;
        };
        inbox.has_arrived(position)
    }

    /// The place of a master's first position above a number, in rising order; the end where there is none.
    pub(super) fn arrivals_above(&self, origin: &SiteName, number: u64) -> usize
        ensures place { IsFirstAbove number (arrivals origin.now (as_site self.now)) result }
        ensures from_one { AllByRecursion (λ a. 1 ≤ a.position) (arrivals origin.now (as_site self.now)) }
    {
        match inbox_from(&self.inboxes, origin) {
            Some(inbox) => {
                inbox.laws();
                inbox.first_above(number)
            }
            None => 0,
        }
    }

    /// The position of a master at a place in rising order.
    pub(super) fn position_at(&self, origin: &SiteName, place: usize) -> u64
        requires { place < length (arrivals origin.now (as_site self.now)) }
        ensures { (a : ArrivalValue) → slice_get (arrivals origin.now (as_site self.now)) place ≡ Some a → result ≡ a.position }
    {
        let Some(inbox) = inbox_from(&self.inboxes, origin) else {
            unreachable!()
        };
        inbox.position_at(place)
    }

    /// Why a position isn't ready; None where it is.
    pub fn stale(&self, origin: &SiteName, position: u64) -> Option<Why>
        ensures { result ≡ stale_of origin.now position (as_site self.now) }
    {
        let Some(inbox) = inbox_from(&self.inboxes, origin) else {
            return Some(Why::NotArrived);
        };
        if inbox.is_finished(position) {
            return Some(Why::Finished);
        }
        let Some(arrival) = inbox.find(position) else {
            return Some(Why::NotArrived);
        };
        // Nothing that arrived has a past.
        if self.mark(origin) < arrival.dep {
            return Some(Why::NotReady);
        }
        None
    }

    /// Whether a position of a master is ready.
    pub fn has_ready(&self, origin: &SiteName) -> bool
        ensures { result ≡ list_any (λ a. is_ready origin.now a.position (as_site self.now)) (arrivals origin.now (as_site self.now)) }
    {
        // What isn't above the low-water mark is finished.
        let start = self.arrivals_above(origin, self.mark(origin));
        for place in start..self.arrived(origin) {
            let position = self.position_at(origin, place);
            let Some(_) = self.stale(origin, position) else {
                return true;
            };
        }
        false
    }
}
