//! Refreshes of snapshots to rows that are given.
ghost use Rattle.std.specs.Prelude.{◌≡◌, ℕ, ◌+◌, ◌<◌, ◌≤◌, [], length, slice_get, vec_len, vec_capacity, Some, Any, IfSome, IfOk, OnOk};
ghost use Rattle.rep_schema.specs.Tables.{IsTable};
ghost use Rattle.snapshot_query.specs.declared.snapshot.Snapshot.{Snapshot as SnapshotValue};
ghost use Rattle.site_state.specs.Refreshes.{with_tables};
ghost use Rattle.site_state.specs.Fits.{SchemaIsKeyed, AreWithin};
ghost use Rattle.refreshes.specs.Refreshed.{RefreshesTo};
ghost use Rattle.refreshes.specs.Refreshing.{AreGivenFor, counted};
ghost use Rattle.refreshes.specs.Done.{HaveDone};

use crate::counts::count_more;
use crate::refresh_complete;
use change_logs::Notes;
use rep_lists::NoMemory;
use rep_schema::{Changes, RowStore};
use site_state::{RefreshCount, TableRows};
use std::alloc::Global;

/// The place of the snapshot of a table, which has one.
fn place_of(notes: &Notes, table: u32) -> usize
    requires { Any (λ (s : SnapshotValue). s.table ≡ table) notes.now.snapshots }
    ensures within { result < length notes.now.snapshots }
    ensures table { IfSome (slice_get notes.now.snapshots result) (λ s. s.table ≡ table) }
{
    for place in 0..notes.snapshot_count() {
        if notes.snapshot_at(place).table() == table {
            return place;
        }
    }
    unreachable!()
}

/// Refreshes the snapshot at a place to the rows that are given for its table. It is lent for that, and its query is
/// taken back whether there was memory or not.
fn refresh_at<R: RowStore>(
    alloc: Global,
    store: &mut R,
    notes: &mut Notes,
    place: usize,
    given: &TableRows,
    moment: u64,
) -> Result<Changes, NoMemory>
    requires place { place < length notes.old.snapshots }
    requires table { IfSome (slice_get notes.old.snapshots place) (λ s. s.table ≡ given.now.table) }
    requires keyed { SchemaIsKeyed (R.schema store.old) }
    requires within { AreWithin (R.schema store.old) notes.old.snapshots }
    requires rows { IsTable (R.schema store.old) given.now.table given.now.rows }
    ensures refreshed { RefreshesTo given.now.table given.now.rows
        (record { schema = R.schema store.old; tables = R.tables store.old; spare = R.spare store.old })
        (record { schema = R.schema store.new; tables = R.tables store.new; spare = R.spare store.new }) result }
    ensures snapshots { notes.new.snapshots ≡ notes.old.snapshots }
    ensures logs { notes.new.logs ≡ notes.old.logs }
{
    let mut lent = notes.lend_snapshot(alloc, place);
    let refreshed = refresh_complete(alloc, &mut lent, store, given.rows.as_slice(), moment);
    notes.take_back(place, lent);
    refreshed
}

/// Refreshes the snapshot of each table to the rows that are given for it, in their order, and keeps the changes. Where
/// there is no memory for one of them, those in front of it have their rows, which can be taken back.
pub(crate) fn refresh_each<R: RowStore>(
    alloc: Global,
    store: &mut R,
    notes: &mut Notes,
    rows: &[TableRows],
    moment: u64,
    done: &mut Vec<Changes>,
) -> Result<RefreshCount, NoMemory>
    requires keyed { SchemaIsKeyed (R.schema store.old) }
    requires within { AreWithin (R.schema store.old) notes.old.snapshots }
    requires rows { AreGivenFor (R.schema store.old) notes.old.snapshots rows.now }
    requires none { done.old.items ≡ [] }
    requires room { vec_len done.old + length rows.now ≤ vec_capacity done.old }
    ensures done { HaveDone done.new.items (R.tables store.old) (record { schema = R.schema store.new; tables = R.tables store.new; spare = R.spare store.new }) }
    ensures tables { OnOk result (R.tables store.new ≡ with_tables rows.now (R.tables store.old)) }
    ensures count { IfOk result (λ count. count ≡ counted 0 rows.now) }
    ensures snapshots { notes.new.snapshots ≡ notes.old.snapshots }
    ensures logs { notes.new.logs ≡ notes.old.logs }
    ensures schema { R.schema store.new ≡ R.schema store.old }
{
    let mut count = RefreshCount { keys: 0, rows: 0 };
    for given in rows {
        let place = place_of(notes, given.table);
        let changes = refresh_at(alloc, store, notes, place, given, moment)?;
        done.push_reserved(changes);
        count = count_more(count, 0, given.rows.len() as u64)?;
    }
    Ok(count)
}
