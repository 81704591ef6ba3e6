//! Changes of rows, and taking them back.
ghost use Rattle.std.specs.Prelude.{◌≡◌, ℕ, ◌+◌, ◌<◌, ◌≤◌, List, [], ◌∷◌, length, slice_index};
ghost use Rattle.rep_schema.specs.Tables.{Rows, AreTables};
ghost use Rattle.rep_schema.specs.Changes.{HaveLed, LeadsTo, before_change, room_for};

use crate::{RowStore, columns_of, key_of};
use rep_lists::Items;
use rep_values::Row;

/// A row that was added, replaced or taken, as it was before and as it is after. None stands for no row.
#[derive(Drop)]
pub struct Change {
    pub table: u32,
    pub before: Option<Row>,
    pub after: Option<Row>,
}

/// Changes in the order in which they were made.
#[derive(Drop)]
pub struct Changes {
    pub rows: Items<Change>,
}

/// Takes the last change back.
fn undo_one<R: RowStore>(store: &mut R, change: Change)
    requires led { HaveLed (R.schema store.old) (change ∷ []) (R.tables store.old) }
    requires room { room_for change.table (change ∷ []) ≤ slice_index (R.spare store.old) change.table }
    ensures tables { R.tables store.new ≡ before_change (R.schema store.old) change (R.tables store.old) }
    ensures schema { R.schema store.new ≡ R.schema store.old }
    ensures room { (t : ℕ) → slice_index (R.spare store.old) t ≤ slice_index (R.spare store.new) t + room_for t (change ∷ []) }
{
    let Change {
        table,
        before,
        after,
    } = change;
    match (before, after) {
        (Some(row), _) => {
            let _ = store.put(table, row);
        }
        (None, Some(row)) => {
            let key = key_of(columns_of(store.schema(), table), row.values());
            let _ = store.take(table, &key);
        }
        (None, None) => {}
    }
}

/// Takes changes back, the last one first: each row before is put back, and a row that was added is taken away. It
/// takes no memory, since there is room for the rows to be put back.
pub fn undo<R: RowStore>(store: &mut R, changes: Changes)
    requires led { HaveLed (R.schema store.old) changes.rows (R.tables store.old) }
    requires room { (t : ℕ) → t < length (R.schema store.old).tables → room_for t changes.rows ≤ slice_index (R.spare store.old) t }
    ensures earlier { (earlier : List Rows) → AreTables (R.schema store.old) earlier → LeadsTo (R.schema store.old) changes.rows earlier (R.tables store.old)
        → R.tables store.new ≡ earlier }
    ensures schema { R.schema store.new ≡ R.schema store.old }
    ensures room { (t : ℕ) → slice_index (R.spare store.old) t ≤ slice_index (R.spare store.new) t + room_for t changes.rows }
{
    let mut left = changes.rows.into_vec();
    while let Some(change) = left.pop() {
        undo_one(store, change);
    }
}
