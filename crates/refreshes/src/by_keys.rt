//! Refreshes of snapshots by the keys that are pending.
ghost use Rattle.std.specs.Prelude.{◌≡◌, ℕ, ◌+◌, ◌<◌, ◌≤◌, [], length, slice_get, vec_len, vec_capacity, Some, IfOk, OnOk};
ghost use Rattle.rep_schema.specs.Tables.{columns_of, rows_of, AreTables};
ghost use Rattle.snapshot_query.specs.declared.snapshot.Snapshot.{Snapshot as SnapshotValue};
ghost use Rattle.snapshot_query.specs.Queries.{matches, query_rows};
ghost use Rattle.change_logs.specs.Noting.{pending_keys};
ghost use Rattle.site_state.specs.Refreshes.{rows_shown, with_tables};
ghost use Rattle.site_state.specs.Fits.{SchemaIsKeyed, SnapshotsApart, AreWithin};
ghost use Rattle.refreshes.specs.Showing.{ShowsOthers};
ghost use Rattle.refreshes.specs.Refreshed.{RefreshesTo};
ghost use Rattle.refreshes.specs.Refreshing.{OthersAreShown, pending_count, counted};
ghost use Rattle.refreshes.specs.Done.{HaveDone};

use crate::counts::count_more;
use crate::{MasterView, refresh_fast};
use change_logs::Notes;
use rep_lists::{Items, NoMemory};
use rep_schema::{Changes, RowStore, holds_tables};
use rep_values::Key;
use site_state::RefreshCount;
use std::alloc::Global;

/// The keys that are pending at the snapshot at a place, by its master's logs.
fn pending_at(
    alloc: Global,
    notes: &Notes,
    place: usize,
    logs: &Notes,
) -> Result<Items<Key>, NoMemory>
    requires { place < length notes.now.snapshots }
    ensures { (s : SnapshotValue) → slice_get notes.now.snapshots place ≡ Some s → IfOk result (λ keys. keys ≡ pending_keys logs.now.logs s) }
{
    let table = notes.snapshot_at(place).table();
    notes.pending_keys(alloc, place, logs.log(table))
}

/// Refreshes the snapshot at a place by these keys. It is lent for that, and its query is taken back whether there was
/// memory or not.
fn refresh_at<R: RowStore, M: MasterView>(
    alloc: Global,
    store: &mut R,
    notes: &mut Notes,
    master: &mut M,
    place: usize,
    keys: &[Key],
    moment: u64,
) -> Result<Changes, NoMemory>
    requires place { place < length notes.old.snapshots }
    requires keyed { SchemaIsKeyed (R.schema store.old) }
    requires within { AreWithin (R.schema store.old) notes.old.snapshots }
    requires schema { M.schema master.old ≡ R.schema store.old }
    requires master { AreTables (R.schema store.old) (M.tables master.old) }
    requires others { (s : SnapshotValue) → slice_get notes.old.snapshots place ≡ Some s
        → ShowsOthers (columns_of (R.schema store.old) s.table) (matches s.query) keys.now (rows_of (M.tables master.old) s.table) (rows_of (R.tables store.old) s.table) }
    ensures refreshed { (s : SnapshotValue) → slice_get notes.old.snapshots place ≡ Some s
        → RefreshesTo s.table (query_rows s.query (rows_of (M.tables master.old) s.table))
        (record { schema = R.schema store.old; tables = R.tables store.old; spare = R.spare store.old })
        (record { schema = R.schema store.new; tables = R.tables store.new; spare = R.spare store.new }) result }
    ensures snapshots { notes.new.snapshots ≡ notes.old.snapshots }
    ensures logs { notes.new.logs ≡ notes.old.logs }
    ensures schema { M.schema master.new ≡ M.schema master.old }
    ensures tables { M.tables master.new ≡ M.tables master.old }
    ensures rise { M.count master.old ≤ M.count master.new }
    ensures lookups { M.count master.new ≤ M.count master.old + length keys.now }
{
    let mut lent = notes.lend_snapshot(alloc, place);
    let refreshed = refresh_fast(alloc, &mut lent, store, master, keys, moment);
    notes.take_back(place, lent);
    refreshed
}

/// Refreshes each snapshot by its pending keys, in their order, and keeps the changes. Where there is no memory for one of
/// them, those in front of it have their rows, which can be taken back.
pub(crate) fn refresh_each<R: RowStore, M: MasterView>(
    alloc: Global,
    store: &mut R,
    notes: &mut Notes,
    master: &mut M,
    logs: &Notes,
    moment: u64,
    done: &mut Vec<Changes>,
) -> Result<RefreshCount, NoMemory>
    requires keyed { SchemaIsKeyed (R.schema store.old) }
    requires within { AreWithin (R.schema store.old) notes.old.snapshots }
    requires apart { SnapshotsApart notes.old.snapshots }
    requires schema { M.schema master.old ≡ R.schema store.old }
    requires master { AreTables (R.schema store.old) (M.tables master.old) }
    requires others { OthersAreShown (R.schema store.old) logs.now.logs (M.tables master.old) notes.old.snapshots (R.tables store.old) }
    requires none { done.old.items ≡ [] }
    requires room { vec_len done.old + length notes.old.snapshots ≤ vec_capacity done.old }
    ensures done { HaveDone done.new.items (R.tables store.old) (record { schema = R.schema store.new; tables = R.tables store.new; spare = R.spare store.new }) }
    ensures tables { OnOk result (R.tables store.new ≡ with_tables (rows_shown (M.tables master.old) notes.old.snapshots) (R.tables store.old)) }
    ensures count { IfOk result (λ count. count ≡ counted (pending_count logs.now.logs notes.old.snapshots) (rows_shown (M.tables master.old) notes.old.snapshots)) }
    ensures snapshots { notes.new.snapshots ≡ notes.old.snapshots }
    ensures logs { notes.new.logs ≡ notes.old.logs }
    ensures schema { R.schema store.new ≡ R.schema store.old }
    ensures master_schema { M.schema master.new ≡ M.schema master.old }
    ensures master_tables { M.tables master.new ≡ M.tables master.old }
    ensures rise { M.count master.old ≤ M.count master.new }
    ensures lookups { M.count master.new ≤ M.count master.old + pending_count logs.now.logs notes.old.snapshots }
{
    holds_tables(store);
    let mut count = RefreshCount { keys: 0, rows: 0 };
    for place in 0..notes.snapshot_count() {
        let keys = pending_at(alloc, notes, place, logs)?;
        let changes = refresh_at(alloc, store, notes, master, place, keys.as_slice(), moment)?;
        done.push_reserved(changes);
        let rows = store.count(notes.snapshot_at(place).table());
        count = count_more(count, keys.len() as u64, rows)?;
    }
    Ok(count)
}
