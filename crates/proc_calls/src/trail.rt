//! The changes that calls made, kept so that they can be taken back.
ghost use Rattle.std.specs.Prelude.{◌≡◌, ℕ, ◌+◌, ◌<◌, ◌≤◌, ◌++◌, [], ◌∷◌, cond, is_none, length, slice_index, OnOk};
ghost use Rattle.rep_schema.specs.Changes.{room_for};

use rep_lists::{Items, NoMemory};
use rep_schema::{Change, Changes, RowStore};
use std::alloc::Global;
use std::marker::Model;

/// Changes in the order in which they were made, and how many of them took a row away.
#[derive(Drop)]
pub(crate) struct Trail {
    changes: Vec<Change>,
    taken: u64,
}

impl Model for Trail {
    ghost use Rattle.std.specs.Prelude.{◌-◌, ◌^◌, min, vec_len, vec_capacity};
    ghost use Rattle.rep_lists.specs.Roomy.{Roomy};
    ghost use Rattle.rep_schema.specs.declared.change.Change.{Change as ChangeValue};
    ghost use Rattle.proc_calls.specs.Trails.{IsCounted};

    ghost Value = { Roomy ChangeValue };

    ghost view = { λ t. record {
      items = t.changes.items;
      spare = min (vec_capacity t.changes - vec_len t.changes) (2 ^ 64 - 1 - t.taken);
    } };

    ghost invariant = { λ t. IsCounted t.changes.items t.taken };
}

/// How many rows a change takes away.
fn taken_by(change: &Change) -> u64
    ensures { result ≡ cond (is_none change.now.after) 1 0 }
{
    match change.after {
        None => 1,
        Some(_) => 0,
    }
}

impl Trail {
    /// No change was made, and no memory is taken.
    pub(crate) fn new(alloc: Global) -> Trail
        ensures { result.items ≡ [] }
    {
        Trail {
            changes: Vec::new(alloc),
            taken: 0,
        }
    }

    /// Takes the room for one more change, and in a table of a store for one row beside those that taking the changes back puts
    /// there.
    pub(crate) fn reserve<R: RowStore>(&mut self, store: &mut R, table: u32) -> Result<(), NoMemory>
        requires { table < length (R.schema store.old).tables }
        ensures ok { OnOk result (1 ≤ self.new.spare) }
        ensures beside { OnOk result (room_for table self.old.items + 1 ≤ slice_index (R.spare store.new) table) }
        ensures items { self.new.items ≡ self.old.items }
        ensures schema { R.schema store.new ≡ R.schema store.old }
        ensures tables { R.tables store.new ≡ R.tables store.old }
        ensures kept { (t : ℕ) → slice_index (R.spare store.old) t ≤ slice_index (R.spare store.new) t }
    {
        // The rows that were taken are counted, and the count has to fit its type.
        if self.taken == u64::MAX {
            return Err(NoMemory);
        }
        self.changes.reserve(1)?;
        store.reserve(table, self.taken + 1)?;
        Ok(())
    }

    /// Adds a change, for which there is room.
    pub(crate) fn push(&mut self, change: Change)
        requires { 1 ≤ self.old.spare }
        ensures { self.new.items ≡ self.old.items ++ change ∷ [] }
    {
        self.taken += taken_by(&change);
        self.changes.push_reserved(change);
    }

    /// The changes, as they are.
    pub(crate) fn into_changes(self) -> Changes
        ensures { result.rows ≡ self.items }
    {
        Changes {
            rows: Items::from_vec(self.changes),
        }
    }
}
