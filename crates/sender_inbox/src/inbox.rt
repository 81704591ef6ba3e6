//! What arrived from one sender.
ghost use Rattle.std.specs.Prelude.{◌≡◌, ◌≢◌, ◌↔◌, ℕ, ◌<◌, ◌≤◌, ◌==◌, ◌||◌, false, [], None, Some, length, slice_get, option_copied, is_some, IsTrue, OnOk, OnErr};
ghost use Rattle.rep_lists.specs.Rising.{find_at};
ghost use Rattle.rep_values.specs.SiteNames.{is_same_site};
ghost use Rattle.origin_marks.specs.Marks.{finished, IsLowWater};
ghost use Rattle.site_state.specs.State.{arrival_beside};
ghost use Rattle.site_state.specs.Arrivals.{NamesOthers};
ghost use Rattle.site_state.specs.Making.{new_sender};
ghost use Rattle.site_state.specs.Joining.{with_first};
ghost use Rattle.site_state.specs.Packets.{with_arrival};
ghost use Rattle.site_state.specs.Ready.{covered_at};
ghost use Rattle.sender_inbox.specs.Incoming.{seen_in, IsFirstAbove, IsInbox};
ghost use Rattle.sender_inbox.specs.Reaching.{PastsRise};

use crate::arrivals::{find, first_above, number_at, put_in};
use crate::pasts::rising_with;
use origin_marks::Finished;
use rep_lists::NoMemory;
use rep_values::SiteName;
use site_state::Arrival;
use std::alloc::Global;
use std::marker::Model;

/// What arrived from one sender, in rising order of position, which of it is finished, and the sender's queue number up to
/// which it is seen.
#[derive(Drop)]
pub struct Inbox {
    origin: SiteName,
    first: u64,
    arrived: Vec<Arrival>,
    finished: Finished,
    // The greatest number among the finished positions.
    greatest: u64,
    // The position from which on each past is within each later one.
    from: u64,
}

impl Model for Inbox {
    ghost use Rattle.sender_inbox.specs.Incoming.{Incoming};
    ghost use Rattle.sender_inbox.specs.InboxState.{KeepsGreatest};

    ghost Value = { Incoming };

    ghost view = { λ i. record { sender = record { origin = i.origin; first = i.first; arrived = i.arrived.items }; marked = i.finished } };

    ghost invariant = { λ i. KeepsGreatest i.origin i.arrived.items i.finished i.greatest i.from };
}

impl Inbox {
    /// Nothing arrived, and no memory is taken.
    pub fn make(alloc: Global, origin: &SiteName) -> Inbox
        ensures sender { result.sender ≡ new_sender origin.now }
        ensures finished { (p : ℕ) → finished result.marked p ≡ false }
    {
        Inbox {
            origin: *origin,
            first: 0,
            arrived: Vec::new(alloc),
            finished: Finished::make(alloc),
            greatest: 0,
            from: 0,
        }
    }

    /// The sender.
    pub fn origin(&self) -> &SiteName
        ensures { result.now ≡ self.now.sender.origin }
    {
        &self.origin
    }

    /// Whether this is the sender of a name.
    pub fn is_from(&self, site: &SiteName) -> bool
        ensures { result ≡ is_same_site self.now.sender.origin site.now }
    {
        self.origin.0.is_same(&site.0)
    }

    /// Its queue count when this site joined, 0 where this site was there from the start.
    pub fn first(&self) -> u64
        ensures { result ≡ self.now.sender.first }
    {
        self.first
    }

    /// Sets the sender's queue count from which it is seen, where this site begins with rows that hold so much of its queue.
    pub fn set_first(&mut self, number: u64)
        ensures sender { self.new.sender ≡ with_first number self.old.sender }
        ensures marked { self.new.marked ≡ self.old.marked }
    {
        self.first = number;
    }

    /// How many positions arrived.
    pub fn len(&self) -> usize
        ensures { result ≡ length self.now.sender.arrived }
    {
        self.arrived.len()
    }

    /// Whether nothing arrived.
    pub fn is_empty(&self) -> bool
        ensures { IsTrue result ↔ (self.now.sender.arrived ≡ []) }
    {
        self.arrived.is_empty()
    }

    /// What arrived at a position.
    pub fn find(&self, position: u64) -> Option<&Arrival>
        ensures { option_copied result ≡ find_at (arrival_beside position) self.now.sender.arrived }
    {
        find(&self.arrived, position)
    }

    /// Whether a position arrived. It takes no memory.
    pub fn has_arrived(&self, position: u64) -> bool
        ensures { result ≡ is_some (find_at (arrival_beside position) self.now.sender.arrived) }
    {
        self.finished.is_finished(position) || find(&self.arrived, position).is_some()
    }

    /// The position at a place in rising order.
    pub fn position_at(&self, place: usize) -> u64
        requires { place < length self.now.sender.arrived }
        ensures { (a : _) → slice_get self.now.sender.arrived place ≡ Some a → result ≡ a.position }
    {
        self.arrived[place].position
    }

    /// What arrived at a place in rising order of position.
    pub fn arrival_at(&self, place: usize) -> &Arrival
        requires { place < length self.now.sender.arrived }
        ensures { slice_get self.now.sender.arrived place ≡ Some result.now }
    {
        &self.arrived[place]
    }

    /// A position from which on the pasts of what arrived rise: each one is within each later one.
    pub fn pasts_rise_from(&self) -> u64
        ensures { PastsRise result self.now.sender.arrived }
    {
        self.from
    }

    /// The place of the first position above a number, the end where there is none.
    pub fn first_above(&self, number: u64) -> usize
        ensures { IsFirstAbove number self.now.sender.arrived result }
    {
        first_above(&self.arrived, number)
    }

    /// Takes in what hadn't arrived. It depends on an earlier position, if any, and its past doesn't name the sender.
    pub fn accept(&mut self, arrival: Arrival) -> Result<(), NoMemory>
        requires earlier { arrival.dep < arrival.position }
        requires others { NamesOthers self.old.sender.origin arrival.past }
        requires absent { find_at (arrival_beside arrival.position) self.old.sender.arrived ≡ None }
        ensures ok { OnOk result (self.new.sender ≡ with_arrival arrival self.old.sender) }
        ensures err { OnErr result (self.new.sender ≡ self.old.sender) }
        ensures marked { self.new.marked ≡ self.old.marked }
    {
        let low = self.finished.low_water();
        let from = rising_with(&self.arrived, self.from, low, &arrival);
        put_in(&mut self.arrived, arrival)?;
        self.from = from;
        Ok(())
    }

    /// Whether a position is finished.
    pub fn is_finished(&self, position: u64) -> bool
        ensures { result ≡ finished self.now.marked position }
    {
        self.finished.is_finished(position)
    }

    /// The greatest number with all positions from 1 up to it finished.
    pub fn low_water(&self) -> u64
        ensures { IsLowWater (finished self.now.marked) result }
    {
        self.finished.low_water()
    }

    /// The queue number of the transaction at the low-water mark, or the first number where that mark is 0.
    pub fn covered(&self) -> u64
        ensures { (low : ℕ) → IsLowWater (finished self.now.marked) low → result ≡ covered_at low (Some self.now.sender) }
    {
        let low = self.finished.low_water();
        if low == 0 {
            return self.first;
        }
        number_at(&self.arrived, low)
    }

    /// The sender's queue number up to which it is seen.
    pub fn seen(&self) -> u64
        ensures { result ≡ seen_in self.now }
    {
        self.first.max(self.greatest)
    }

    /// What always holds: what arrived rises from position 1 and can be passed, and what is finished has arrived.
    pub fn laws(&self)
        ensures { IsInbox self.now.sender.origin self.now.sender.arrived self.now.marked }
    {
        let _ = &self.arrived;
    }

    /// Takes the room to finish one position.
    pub fn reserve(&mut self) -> Result<(), NoMemory>
        ensures ok { OnOk result (1 ≤ self.new.marked.room) }
        ensures sender { self.new.sender ≡ self.old.sender }
        ensures finished { self.new.marked.edges ≡ self.old.marked.edges }
    {
        self.finished.reserve()
    }

    /// Finishes a position that arrived. It takes no memory.
    pub fn finish(&mut self, position: u64)
        requires arrived { find_at (arrival_beside position) self.old.sender.arrived ≢ None }
        requires unfinished { finished self.old.marked position ≡ false }
        requires room { 1 ≤ self.old.marked.room }
        ensures sender { self.new.sender ≡ self.old.sender }
        ensures finished { (p : ℕ) → finished self.new.marked p ≡ (p == position || finished self.old.marked p) }
    {
        let number = number_at(&self.arrived, position);
        self.finished.finish(position);
        self.greatest = self.greatest.max(number);
    }
}
