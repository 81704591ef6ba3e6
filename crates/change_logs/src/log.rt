//! The log of one table.
ghost use Rattle.std.specs.Prelude.{◌≡◌, ◌+◌, ◌≤◌, ◌↔◌, [], length, slice_get, option_copied, IsTrue, IsOk, IfOk, OnOk};
ghost use Rattle.rep_lists.specs.Rising.{IsRising, put_at};
ghost use Rattle.rep_values.specs.Order.{key_cmp};
ghost use Rattle.change_logs.specs.LogState.{new_log, log_purged};
ghost use Rattle.change_logs.specs.Noting.{beside_key, logged_above};
ghost use Rattle.change_logs.specs.Logs.{by_key, key_noted, moment_in, count_up_to};

use crate::LogEntry;
use ordered_keys::TreeList;
use rep_lists::{Items, NoMemory};
use rep_values::Key;
use std::alloc::Global;
use std::marker::Model;

/// The log of one table of a master: the keys of its changed rows in rising order, each with its last moment, and how
/// far it was purged. Only `reserve` and `pending` take memory.
#[derive(Drop)]
pub struct Log {
    table: u32,
    purged: u64,
    entries: TreeList<LogEntry>,
}

impl Model for Log {
    ghost use Rattle.rep_lists.specs.Rising.{IsRising};
    ghost use Rattle.change_logs.specs.Logs.{RoomyLog, by_key};

    ghost Value = { RoomyLog };

    ghost view = { λ l. record {
      log = record { table = l.table; keys = l.entries.items; purged = l.purged };
      spare = l.entries.spare;
    } };

    ghost invariant = { λ l. IsRising by_key l.entries.items };
}

/// Keeps a key with a moment, which takes the place of an earlier one.
fn put_in(entries: &mut TreeList<LogEntry>, key: Key, moment: u64)
    requires rising { IsRising by_key entries.old.items }
    requires room { 1 ≤ entries.old.spare }
    ensures items { entries.new.items ≡ put_at (beside_key key) (record { key = key; moment = moment }) entries.old.items }
    ensures spare { entries.old.spare ≤ entries.new.spare + 1 }
{
    match entries.search(&key) {
        Ok(place) => entries.set(place, LogEntry::of(key, moment)),
        Err(place) => entries.insert(place, LogEntry::of(key, moment)),
    }
}

impl Log {
    /// The log of a table, without a key and never purged. It takes no memory.
    pub fn make(alloc: Global, table: u32) -> Log
        ensures { result.log ≡ new_log table }
    {
        Log {
            table,
            purged: 0,
            entries: TreeList::new(alloc),
        }
    }

    /// The table whose changes are noted here.
    pub fn table(&self) -> u32
        ensures { result ≡ self.now.log.table }
    {
        self.table
    }

    /// Takes the room to note so many keys. Room that is there is never given up.
    pub fn reserve(&mut self, keys: u64) -> Result<(), NoMemory>
        ensures ok { OnOk result (keys ≤ self.new.spare) }
        ensures succeeds { keys ≤ self.old.spare → IsOk result }
        ensures log { self.new.log ≡ self.old.log }
        ensures spare { self.old.spare ≤ self.new.spare }
    {
        self.entries.reserve(keys as usize)
    }

    /// Notes the key of a row that was changed at a moment. It takes no memory.
    pub fn note(&mut self, key: Key, moment: u64)
        requires { 1 ≤ self.old.spare }
        ensures log { self.new.log ≡ key_noted moment key self.old.log }
        ensures spare { self.old.spare ≤ self.new.spare + 1 }
    {
        put_in(&mut self.entries, key, moment);
    }

    /// The keys with a moment above the mark, in rising order.
    pub fn pending(&self, alloc: Global, mark: u64) -> Result<Items<Key>, NoMemory>
        ensures keys { IfOk result (λ keys. keys ≡ logged_above mark self.now.log.keys) }
        ensures rising { IfOk result (IsRising key_cmp) }
    {
        self.entries.keys_above(alloc, mark)
    }

    /// Drops the keys with a moment up to the mark, and answers how many they were. Their room stays.
    pub fn purge(&mut self, mark: u64) -> u64
        ensures log { self.new.log ≡ log_purged mark self.old.log }
        ensures count { result ≡ count_up_to mark self.old.log.keys }
        ensures spare { self.new.spare ≡ self.old.spare + result }
    {
        let before = self.entries.len();
        self.entries.purge(mark);
        self.purged = self.purged.max(mark);
        (before - self.entries.len()) as u64
    }

    /// The greatest mark up to which it was purged, at first 0.
    pub fn purged(&self) -> u64
        ensures { result ≡ self.now.log.purged }
    {
        self.purged
    }

    /// The last moment of a key; None exactly where the key isn't here.
    pub fn moment_of(&self, key: &Key) -> Option<u64>
        ensures { result ≡ moment_in key.now self.now.log }
    {
        match self.entries.search(key) {
            Ok(place) => Some(self.entries.at(place).moment()),
            Err(_) => None,
        }
    }

    /// How many keys there are.
    pub fn len(&self) -> u64
        ensures { result ≡ length self.now.log.keys }
    {
        self.entries.len() as u64
    }

    /// Whether there is no key.
    pub fn is_empty(&self) -> bool
        ensures { IsTrue result ↔ (self.now.log.keys ≡ []) }
    {
        self.entries.len() == 0
    }

    /// The key at a place in rising order, from 0; None exactly where the place is at or behind the end.
    pub fn entry(&self, place: u64) -> Option<&LogEntry>
        ensures { option_copied result ≡ slice_get self.now.log.keys place }
    {
        self.entries.get(place as usize)
    }
}
