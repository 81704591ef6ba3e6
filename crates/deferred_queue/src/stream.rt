//! The stream to one destination.
ghost use Rattle.std.specs.Prelude.{◌≡◌, ℕ, ◌+◌, ◌-◌, ◌≤◌, length, option_copied, slice_get, OnOk};
ghost use Rattle.deferred_queue.specs.Streams.{at_position};
ghost use Rattle.deferred_queue.specs.QueueState.{FallsFrom, new_held, held_extended, held_raised, held_swept, is_stream_to, place_in, has_passed};

use crate::destination::dep_of;
use crate::entries::{Entry, place_with};
use crate::{Destination, Place};
use rep_lists::NoMemory;
use rep_values::SiteName;
use std::alloc::Global;
use std::marker::Model;

/// What was queued for one destination, each entry with the position that it depends on, how far that is
/// acknowledged, and how far it was at the last purge.
#[derive(Drop)]
pub(crate) struct Stream {
    site: SiteName,
    acked: u64,
    swept: u64,
    entries: Vec<Entry<u64>>,
}

impl Model for Stream {
    ghost use Rattle.std.specs.Prelude.{◌-◌, reverse, vec_len, vec_capacity};
    ghost use Rattle.deferred_queue.specs.QueueState.{Falls, QueueState};

    ghost Value = { QueueState };

    ghost view = { λ s. record {
      kept = record { site = s.site; acked = s.acked; entries = reverse s.entries.items };
      swept = s.swept;
      room = vec_capacity s.entries - vec_len s.entries;
    } };

    ghost invariant = { λ s. Falls (reverse s.entries.items) };
}

fn entry_at(entries: &[Entry<u64>], place: usize) -> Option<&Entry<u64>>
    ensures { option_copied result ≡ slice_get entries.now place }
{
    entries.get(place)
}

impl Stream {
    /// Nothing is queued for the destination, and no memory is taken.
    pub(crate) fn new(alloc: Global, site: SiteName) -> Stream
        ensures { result ≡ new_held site }
    {
        Stream {
            site,
            acked: 0,
            swept: 0,
            entries: Vec::new(alloc),
        }
    }

    /// Takes the room for one more entry.
    pub(crate) fn reserve(&mut self) -> Result<(), NoMemory>
        ensures ok { OnOk result (1 ≤ self.new.room) }
        ensures kept { self.new.kept ≡ self.old.kept }
        ensures swept { self.new.swept ≡ self.old.swept }
        ensures room { self.old.room ≤ self.new.room }
    {
        self.entries.reserve(1)?;
        Ok(())
    }

    /// Adds an entry of the transaction, where it goes to this destination.
    pub(crate) fn extend(&mut self, to: &[Destination], number: u64)
        requires room { 1 ≤ self.old.room }
        requires from_one { 1 ≤ number }
        requires later { FallsFrom (number - 1) self.old.kept.entries }
        ensures { self.new ≡ held_extended to.now number self.old }
    {
        if let Some(dep) = dep_of(to, &self.site) {
            self.entries.push_reserved(Entry { number, value: dep });
        }
    }

    /// Takes in a mark for a site.
    pub(crate) fn raise(&mut self, site: &SiteName, mark: u64)
        ensures { self.new ≡ held_raised site.now mark self.old }
    {
        if self.is_to(site) {
            self.acked = self.acked.max(mark);
        }
    }

    /// Remembers how far it is acknowledged at a purge.
    pub(crate) fn sweep(&mut self)
        ensures { self.new ≡ held_swept self.old }
    {
        self.swept = self.acked;
    }

    /// Whether this is the stream to a site.
    pub(crate) fn is_to(&self, site: &SiteName) -> bool
        ensures { result ≡ is_stream_to site.now self.now }
    {
        self.site.0.is_same(&site.0)
    }

    /// The entry at a position, from 1.
    pub(crate) fn entry(&self, position: u64) -> Option<&Entry<u64>>
        ensures { option_copied result ≡ at_position position self.now.kept.entries }
    {
        if position == 0 {
            return None;
        }
        entry_at(&self.entries, position as usize - 1)
    }

    /// The position of a number, and what it depends on.
    pub(crate) fn place_of(&self, number: u64) -> Option<Place>
        ensures { result ≡ place_in number self.now.kept.entries }
    {
        let place = place_with(&self.entries, number)?;
        Some(Place {
            position: place as u64 + 1,
            dep: self.entries[place].value,
        })
    }

    /// Whether a number has no position here, or an acknowledged one.
    pub(crate) fn has_passed(&self, number: u64) -> bool
        ensures { result ≡ has_passed number self.now.kept }
    {
        match place_with(&self.entries, number) {
            Some(place) => place as u64 + 1 <= self.acked,
            None => true,
        }
    }

    /// The last position, 0 where nothing was queued.
    pub(crate) fn last(&self) -> u64
        ensures { result ≡ length self.now.kept.entries }
    {
        self.entries.len() as u64
    }

    /// The position up to which all is acknowledged.
    pub(crate) fn acked(&self) -> u64
        ensures { result ≡ self.now.kept.acked }
    {
        self.acked
    }

    /// The position up to which all was acknowledged at the last purge.
    pub(crate) fn swept(&self) -> u64
        ensures { result ≡ self.now.swept }
    {
        self.swept
    }
}
