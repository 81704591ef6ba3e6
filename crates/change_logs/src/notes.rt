//! The logs and the snapshots of a site.
ghost use Rattle.std.specs.Prelude.{◌≡◌, ◌+◌, ◌<◌, ◌≤◌, List, Some, length, map, slice_get, option_map, option_copied, IsOk, IfOk, OnOk};
ghost use Rattle.std.specs.List.{AllByRecursion};
ghost use Rattle.rep_lists.specs.Rising.{IsRising};
ghost use Rattle.rep_values.specs.Order.{key_cmp};
ghost use Rattle.rep_schema.specs.Changes.{ChangeFits};
ghost use Rattle.snapshot_query.specs.declared.snapshot.Snapshot.{Snapshot as SnapshotValue};
ghost use Rattle.change_logs.specs.LogState.{LogState, new_log, purged_where};
ghost use Rattle.change_logs.specs.Noting.{log_of, keys_in, logged_in, touched_in, pending_keys, renewed};
ghost use Rattle.change_logs.specs.Logs.{count_up_to};
ghost use Rattle.change_logs.specs.RoomyNotes.{log_in, snapshot_in};
ghost use Rattle.change_logs.specs.Noted.{as_lent, without_query, with_query, at_place};

use crate::{Log, Watched, logs, snapshots};
use rep_lists::{Items, NoMemory};
use rep_schema::{Change, Schema};
use rep_values::Key;
use snapshot_query::Snapshot;
use std::alloc::Global;
use std::marker::Model;

/// What a site notes of its changed rows: their keys, in the logs of its tables and at its snapshots. Only `make`,
/// `reserve` and `pending_keys` take memory.
#[derive(Drop)]
pub struct Notes {
    logs: Vec<Log>,
    watched: Vec<Watched>,
}

impl Model for Notes {
    ghost use Rattle.change_logs.specs.RoomyNotes.{logs_in, snapshots_in, least_room};
    ghost use Rattle.change_logs.specs.Noted.{NotesState};

    ghost Value = { NotesState };

    ghost view = { λ n. record {
      logs = logs_in n.logs.items;
      snapshots = snapshots_in n.watched.items;
      room = least_room n.logs.items n.watched.items;
    } };
}

impl Notes {
    /// A log of each of these tables, in this order and without a key, and these snapshots as they are.
    pub fn make(
        alloc: Global,
        logged: &[u32],
        snapshots: Items<Snapshot>,
    ) -> Result<Notes, NoMemory>
        ensures logs { IfOk result (λ notes. notes.logs ≡ map new_log logged.now) }
        ensures snapshots { IfOk result (λ notes. notes.snapshots ≡ snapshots) }
    {
        let logs = logs::new_logs(alloc, logged)?;
        let watched = snapshots::watch_each(alloc, snapshots)?;
        Ok(Notes { logs, watched })
    }

    /// Takes the room to note so many changed rows. Room that is there is never given up.
    pub fn reserve(&mut self, changes: u64) -> Result<(), NoMemory>
        ensures ok { OnOk result (changes ≤ self.new.room) }
        ensures succeeds { changes ≤ self.old.room → IsOk result }
        ensures logs { self.new.logs ≡ self.old.logs }
        ensures snapshots { self.new.snapshots ≡ self.old.snapshots }
        ensures room { self.old.room ≤ self.new.room }
    {
        logs::reserve_each(&mut self.logs, changes)?;
        snapshots::reserve_each(&mut self.watched, changes)?;
        Ok(())
    }

    /// Notes changed rows at a moment of the site. It takes no memory.
    pub fn note(&mut self, schema: &Schema, changes: &[Change], moment: u64)
        requires fits { AllByRecursion (ChangeFits schema.now) changes.now }
        requires room { length changes.now ≤ self.old.room }
        ensures logs { self.new.logs ≡ map (logged_in schema.now moment changes.now) self.old.logs }
        ensures snapshots { self.new.snapshots ≡ map (touched_in schema.now changes.now) self.old.snapshots }
        ensures room { self.old.room ≤ self.new.room + length changes.now }
    {
        logs::note_each(&mut self.logs, schema, changes, moment);
        snapshots::touch_each(&mut self.watched, schema, changes);
    }

    /// The log of a table; None exactly where it isn't logged.
    pub fn log(&self, table: u32) -> Option<&Log>
        ensures { option_map log_in (option_copied result) ≡ log_of table self.now.logs }
    {
        logs::find(&self.logs, table)
    }

    /// How many tables are logged.
    pub fn log_count(&self) -> usize
        ensures { result ≡ length self.now.logs }
    {
        self.logs.len()
    }

    /// The log at a place, from 0, in the order of `make`.
    pub fn log_at(&self, place: usize) -> &Log
        requires { place < length self.now.logs }
        ensures { slice_get self.now.logs place ≡ Some (log_in result.now) }
    {
        &self.logs[place]
    }

    /// Drops the keys of a table's log that have a moment up to this one, and answers how many they were. Where the table
    /// isn't logged, there is none.
    pub fn purge_log(&mut self, table: u32, moment: u64) -> u64
        ensures logs { self.new.logs ≡ map (purged_where table moment) self.old.logs }
        ensures count { result ≡ count_up_to moment (keys_in (log_of table self.old.logs)) }
        ensures snapshots { self.new.snapshots ≡ self.old.snapshots }
        ensures room { self.old.room ≤ self.new.room }
    {
        let before = logs::key_count(&self.logs, table);
        logs::purge_each(&mut self.logs, table, moment);
        before - logs::key_count(&self.logs, table)
    }

    /// How many snapshots there are.
    pub fn snapshot_count(&self) -> usize
        ensures { result ≡ length self.now.snapshots }
    {
        self.watched.len()
    }

    /// The snapshot at a place, from 0, in the order of `make`.
    pub fn snapshot_at(&self, place: usize) -> &Watched
        requires { place < length self.now.snapshots }
        ensures { slice_get self.now.snapshots place ≡ Some (snapshot_in result.now) }
    {
        &self.watched[place]
    }

    /// The keys that a refresh of the snapshot at a place looks up, by its master's log of its table: those that were
    /// logged above its mark and those that were touched, each once. No log stands for an empty one.
    pub fn pending_keys(
        &self,
        alloc: Global,
        place: usize,
        logged: Option<&Log>,
    ) -> Result<Items<Key>, NoMemory>
        requires { place < length self.now.snapshots }
        ensures keys { (snapshot : SnapshotValue) (logs : List LogState) → slice_get self.now.snapshots place ≡ Some snapshot → log_of snapshot.table logs ≡ option_map log_in (option_copied logged.entry)
            → IfOk result (λ keys. keys ≡ pending_keys logs snapshot) }
        ensures rising { (snapshot : SnapshotValue) → slice_get self.now.snapshots place ≡ Some snapshot → IsRising key_cmp snapshot.touched → IfOk result (IsRising key_cmp) }
    {
        self.watched[place].pending_keys(alloc, logged)
    }

    /// Lends the snapshot at a place, without its parent and its touched keys, to a refresh. Until it is taken back its query
    /// has no test here.
    pub fn lend_snapshot(&mut self, alloc: Global, place: usize) -> Snapshot
        requires { place < length self.old.snapshots }
        ensures lent { option_map as_lent (slice_get self.old.snapshots place) ≡ Some result }
        ensures snapshots { self.new.snapshots ≡ at_place place without_query self.old.snapshots }
        ensures logs { self.new.logs ≡ self.old.logs }
        ensures room { self.new.room ≡ self.old.room }
    {
        self.watched[place].lend(alloc)
    }

    /// Takes the query of a snapshot that was lent back to its place, whether it was refreshed or not. `renew` says that it
    /// was.
    pub fn take_back(&mut self, place: usize, lent: Snapshot)
        requires { place < length self.old.snapshots }
        ensures snapshots { self.new.snapshots ≡ at_place place (with_query lent.query) self.old.snapshots }
        ensures logs { self.new.logs ≡ self.old.logs }
        ensures room { self.new.room ≡ self.old.room }
    {
        self.watched[place].take_back(lent);
    }

    /// All snapshots are refreshed at a moment of their master. It takes no memory, and the room of their keys stays.
    pub fn renew(&mut self, moment: u64)
        ensures snapshots { self.new.snapshots ≡ map (renewed moment) self.old.snapshots }
        ensures logs { self.new.logs ≡ self.old.logs }
        ensures room { self.old.room ≤ self.new.room }
    {
        snapshots::renew_each(&mut self.watched, moment);
    }
}
