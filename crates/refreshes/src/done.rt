//! What refreshes have done, and taking it back.
ghost use Rattle.std.specs.Prelude.{◌≡◌, ℕ, ◌≤◌, List, slice_index};
ghost use Rattle.rep_schema.specs.Tables.{Rows, AreTables};
ghost use Rattle.rep_schema.specs.Changes.{HaveLed, LeadsTo, room_for};
ghost use Rattle.refreshes.specs.Done.{all_changes};

use rep_schema::{Changes, RowStore, undo};

/// Takes the changes of several refreshes back, the last one first. It takes no memory, since there is room for the rows
/// to be put back.
pub(crate) fn undo_all<R: RowStore>(store: &mut R, done: Vec<Changes>)
    requires led { HaveLed (R.schema store.old) (all_changes done.items) (R.tables store.old) }
    requires room { (t : ℕ) → room_for t (all_changes done.items) ≤ slice_index (R.spare store.old) t }
    ensures earlier { (earlier : List Rows) → AreTables (R.schema store.old) earlier → LeadsTo (R.schema store.old) (all_changes done.items) earlier (R.tables store.old)
        → R.tables store.new ≡ earlier }
    ensures schema { R.schema store.new ≡ R.schema store.old }
{
    let mut left = done;
    while let Some(changes) = left.pop() {
        undo(store, changes);
    }
}
