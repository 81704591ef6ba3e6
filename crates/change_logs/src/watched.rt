//! One snapshot of a site.
ghost use Rattle.std.specs.Prelude.{◌≡◌, ◌+◌, ◌≤◌, List, option_map, option_copied, IsOk, IfOk, OnOk};
ghost use Rattle.rep_lists.specs.Rising.{IsRising};
ghost use Rattle.rep_values.specs.Order.{key_cmp};
ghost use Rattle.change_logs.specs.LogState.{LogState};
ghost use Rattle.change_logs.specs.Noting.{log_of, pending_keys, renewed};
ghost use Rattle.change_logs.specs.RoomyNotes.{log_in};
ghost use Rattle.change_logs.specs.Noted.{key_touched, as_lent, without_query, with_query};

use crate::Log;
use crate::merge::with_keys;
use crate::touched::Touched;
use rep_lists::{Items, NoMemory};
use rep_values::Key;
use snapshot_query::{Parent, Query, Snapshot};
use std::alloc::Global;
use std::marker::Model;
use std::mem;

/// A snapshot of a site, with room for the keys of rows that are changed there. Only `reserve` and `pending_keys` take
/// memory.
#[derive(Drop)]
pub struct Watched {
    table: u32,
    query: Query,
    parent: Option<Parent>,
    mark: u64,
    touched: Touched,
}

impl Model for Watched {
    ghost use Rattle.change_logs.specs.RoomyNotes.{RoomySnapshot};

    ghost Value = { RoomySnapshot };

    ghost view = { λ w. record {
      snapshot = record { table = w.table; query = w.query; parent = w.parent; mark = w.mark; touched = w.touched.items };
      spare = w.touched.spare;
    } };
}

impl Watched {
    /// The snapshot as it is.
    pub(crate) fn of(alloc: Global, snapshot: Snapshot) -> Result<Watched, NoMemory>
        ensures { IfOk result (λ watched. watched.snapshot ≡ snapshot) }
    {
        let Snapshot {
            table,
            query,
            parent,
            mark,
            touched,
        } = snapshot;
        Ok(Watched {
            table,
            query,
            parent,
            mark,
            touched: Touched::of(alloc, touched)?,
        })
    }

    /// Its table.
    pub fn table(&self) -> u32
        ensures { result ≡ self.now.snapshot.table }
    {
        self.table
    }

    /// Which of its master's rows it shows.
    pub fn query(&self) -> &Query
        ensures { result.now ≡ self.now.snapshot.query }
    {
        &self.query
    }

    /// The parent by which it shows rows, if it has one.
    pub fn parent(&self) -> Option<&Parent>
        ensures { option_copied result ≡ self.now.snapshot.parent }
    {
        self.parent.as_ref()
    }

    /// The master's moment at its last refresh.
    pub fn mark(&self) -> u64
        ensures { result ≡ self.now.snapshot.mark }
    {
        self.mark
    }

    /// Takes the room to note so many keys. Room that is there is never given up.
    pub(crate) fn reserve(&mut self, keys: u64) -> Result<(), NoMemory>
        ensures ok { OnOk result (keys ≤ self.new.spare) }
        ensures succeeds { keys ≤ self.old.spare → IsOk result }
        ensures snapshot { self.new.snapshot ≡ self.old.snapshot }
        ensures spare { self.old.spare ≤ self.new.spare }
    {
        self.touched.reserve(keys)
    }

    /// Notes the key of a row that was changed. It takes no memory.
    pub(crate) fn touch(&mut self, key: Key)
        requires { 1 ≤ self.old.spare }
        ensures snapshot { self.new.snapshot ≡ key_touched key self.old.snapshot }
        ensures spare { self.old.spare ≤ self.new.spare + 1 }
    {
        self.touched.put(key);
    }

    /// The keys that a refresh looks up: those that its master's log of its table has above its mark, and the touched
    /// ones, each once. No log stands for an empty one.
    pub fn pending_keys(&self, alloc: Global, logged: Option<&Log>) -> Result<Items<Key>, NoMemory>
        ensures keys { (logs : List LogState) → log_of self.now.snapshot.table logs ≡ option_map log_in (option_copied logged.entry)
            → IfOk result (λ keys. keys ≡ pending_keys logs self.now.snapshot) }
        ensures rising { IsRising key_cmp self.now.snapshot.touched → IfOk result (IsRising key_cmp) }
    {
        let above = match logged {
            Some(log) => log.pending(alloc, self.mark)?,
            None => Items::new(alloc),
        };
        let touched = self.touched.keys(alloc)?;
        with_keys(alloc, above.as_slice(), touched.as_slice())
    }

    /// Lends the snapshot without its parent and its touched keys. Until it is taken back its query has no test here.
    pub(crate) fn lend(&mut self, alloc: Global) -> Snapshot
        ensures lent { result ≡ as_lent self.old.snapshot }
        ensures snapshot { self.new.snapshot ≡ without_query self.old.snapshot }
        ensures spare { self.new.spare ≡ self.old.spare }
    {
        let none = Query {
            tests: Items::new(alloc),
        };
        Snapshot {
            table: self.table,
            query: mem::replace(&mut self.query, none),
            parent: None,
            mark: self.mark,
            touched: Items::new(alloc),
        }
    }

    /// Takes the query of what was lent back. Parent, mark and touched keys are still here.
    pub(crate) fn take_back(&mut self, lent: Snapshot)
        ensures snapshot { self.new.snapshot ≡ with_query lent.query self.old.snapshot }
        ensures spare { self.new.spare ≡ self.old.spare }
    {
        self.query = lent.query;
    }

    /// It is refreshed at a moment of its master: no row was changed since then. The room of its keys stays.
    pub(crate) fn renew(&mut self, moment: u64)
        ensures snapshot { self.new.snapshot ≡ renewed moment self.old.snapshot }
        ensures spare { self.old.spare ≤ self.new.spare }
    {
        self.mark = moment;
        self.touched.clear();
    }
}
