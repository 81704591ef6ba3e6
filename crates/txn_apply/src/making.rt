//! Row changes made on a store.
ghost use Rattle.std.specs.Prelude.{◌≡◌, ℕ, ◌+◌, ◌<◌, ◌≤◌, [], ◌∷◌, length, slice_index, OnOk, OnErr};
ghost use Rattle.std.specs.List.{AllByRecursion};
ghost use Rattle.rep_schema.specs.Changes.{after_change, IsChange, LeadsTo, room_for};
ghost use Rattle.rep_schema.specs.Putting.{after_changes};
ghost use Rattle.txn_apply.specs.Making.{changes_in};

use rep_lists::NoMemory;
use rep_schema::{Change, Changes, RowStore, holds_tables, key_in};

/// Makes room for changes, so that they can be made and taken back at no memory, or finds no memory.
pub fn make_room<R: RowStore>(store: &mut R, changes: &Changes) -> Result<(), NoMemory>
    requires { AllByRecursion (λ change. change.table < length (R.schema store.old).tables) changes.now.rows }
    ensures room { OnOk result ((t : ℕ) → changes_in t changes.now.rows ≤ slice_index (R.spare store.new) t) }
    ensures tables { R.tables store.new ≡ R.tables store.old }
    ensures schema { R.schema store.new ≡ R.schema store.old }
{
    let rows = changes.rows.len() as u64;
    for change in changes.rows.as_slice() {
        store.reserve(change.table, rows)?;
    }
    Ok(())
}

/// Makes a change.
fn make_change<R: RowStore>(store: &mut R, change: Change)
    requires is { IsChange (R.schema store.old) change (R.tables store.old) }
    requires room { 1 ≤ slice_index (R.spare store.old) change.table }
    ensures tables { R.tables store.new ≡ after_change (R.schema store.old) change (R.tables store.old) }
    ensures schema { R.schema store.new ≡ R.schema store.old }
    ensures room { (t : ℕ) → slice_index (R.spare store.old) t + room_for t (change ∷ []) ≤ slice_index (R.spare store.new) t + changes_in t (change ∷ []) }
{
    holds_tables(store);
    let Change {
        table,
        before,
        after,
    } = change;
    match (before, after) {
        (_, Some(row)) => {
            let _ = store.put(table, row);
        }
        (Some(row), None) => {
            let key = key_in(store.schema(), table, &row);
            let _ = store.take(table, &key);
        }
        (None, None) => {}
    }
}

/// Makes changes that lead on from a store's rows, the first one first. It takes no memory, since there is room for
/// them; and then there is room to take them back.
pub fn make_changes<R: RowStore>(store: &mut R, changes: Changes)
    requires leads { LeadsTo (R.schema store.old) changes.rows (R.tables store.old) (after_changes (R.schema store.old) changes.rows (R.tables store.old)) }
    requires room { (t : ℕ) → changes_in t changes.rows ≤ slice_index (R.spare store.old) t }
    ensures tables { R.tables store.new ≡ after_changes (R.schema store.old) changes.rows (R.tables store.old) }
    ensures schema { R.schema store.new ≡ R.schema store.old }
    ensures room { (t : ℕ) → room_for t changes.rows ≤ slice_index (R.spare store.new) t }
{
    for change in changes.rows.into_vec() {
        make_change(store, change);
    }
}

/// Makes changes that lead on from a store's rows: all of them, or none where there is no memory.
pub fn redo<R: RowStore>(store: &mut R, changes: Changes) -> Result<(), NoMemory>
    requires { LeadsTo (R.schema store.old) changes.rows (R.tables store.old) (after_changes (R.schema store.old) changes.rows (R.tables store.old)) }
    ensures ok { OnOk result (R.tables store.new ≡ after_changes (R.schema store.old) changes.rows (R.tables store.old)) }
    ensures room { OnOk result ((t : ℕ) → room_for t changes.rows ≤ slice_index (R.spare store.new) t) }
    ensures kept { OnErr result (R.tables store.new ≡ R.tables store.old) }
    ensures schema { R.schema store.new ≡ R.schema store.old }
{
    make_room(store, &changes)?;
    make_changes(store, changes);
    Ok(())
}
