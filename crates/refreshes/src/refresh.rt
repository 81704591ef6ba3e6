//! The two refreshes.
ghost use Rattle.std.specs.Prelude.{◌≡◌, ◌+◌, ◌*◌, ◌<◌, ◌≤◌, length, IfOk, OnOk, OnErr};
ghost use Rattle.rep_schema.specs.Tables.{columns_of, rows_of, IsKeyed, IsTable};
ghost use Rattle.snapshot_query.specs.Queries.{matches, query_rows};
ghost use Rattle.change_logs.specs.Noting.{renewed};
ghost use Rattle.refreshes.specs.Showing.{ShowsOthers};
ghost use Rattle.refreshes.specs.Refreshed.{RefreshesTo};

use crate::MasterView;
use crate::change::carry_out;
use crate::plan::{plan_keys, plan_rows};
use rep_lists::{Items, NoMemory};
use rep_schema::{Changes, RowStore, holds_tables};
use rep_values::{Key, Row};
use snapshot_query::Snapshot;
use std::alloc::Global;

fn renew(alloc: Global, snap: &mut Snapshot, moment: u64)
    ensures { snap.new ≡ renewed moment snap.old }
{
    snap.mark = moment;
    snap.touched = Items::new(alloc);
}

/// Refreshes a snapshot's table by keys: each of them is looked up at the master, whose moment is given. Under each
/// other key the table already shows what the master has. Afterwards it is the query of the master's table. A row that
/// is what it was is left alone. The answer is the changes made, in order, and there is room in the store to take them
/// back. Where there is no memory, store and snapshot are as before.
pub fn refresh_fast<R: RowStore, M: MasterView>(
    alloc: Global,
    snap: &mut Snapshot,
    store: &mut R,
    master: &mut M,
    keys: &[Key],
    moment: u64,
) -> Result<Changes, NoMemory>
    requires table { snap.old.table < length (R.schema store.old).tables }
    requires keyed { IsKeyed (columns_of (R.schema store.old) snap.old.table) }
    requires schema { M.schema master.old ≡ R.schema store.old }
    requires master { IsTable (R.schema store.old) snap.old.table (rows_of (M.tables master.old) snap.old.table) }
    requires others { ShowsOthers (columns_of (R.schema store.old) snap.old.table) (matches snap.old.query) keys.now (rows_of (M.tables master.old) snap.old.table) (rows_of (R.tables store.old) snap.old.table) }
    ensures refreshed { RefreshesTo snap.old.table (query_rows snap.old.query (rows_of (M.tables master.old) snap.old.table))
        (record { schema = R.schema store.old; tables = R.tables store.old; spare = R.spare store.old })
        (record { schema = R.schema store.new; tables = R.tables store.new; spare = R.spare store.new }) result }
    ensures few { IfOk result (λ changes. length changes.rows ≤ 2 * length keys.now) }
    ensures renewed { OnOk result (snap.new ≡ renewed moment snap.old) }
    ensures same { OnErr result (snap.new ≡ snap.old) }
    ensures schema { M.schema master.new ≡ M.schema master.old }
    ensures tables { M.tables master.new ≡ M.tables master.old }
    ensures rise { M.count master.old ≤ M.count master.new }
    ensures lookups { M.count master.new ≤ M.count master.old + length keys.now }
{
    holds_tables(store);
    let plan = plan_keys(alloc, &snap.query, store, master, snap.table, keys)?;
    let changes = carry_out(alloc, store, snap.table, plan)?;
    renew(alloc, snap, moment);
    Ok(changes)
}

/// Refreshes a snapshot's table to rows that are given with the master's moment. A row that is what it was is left
/// alone. The answer is the changes made, in order, and there is room in the store to take them back. Where there is no
/// memory, store and snapshot are as before.
pub fn refresh_complete<R: RowStore>(
    alloc: Global,
    snap: &mut Snapshot,
    store: &mut R,
    rows: &[Row],
    moment: u64,
) -> Result<Changes, NoMemory>
    requires table { snap.old.table < length (R.schema store.old).tables }
    requires keyed { IsKeyed (columns_of (R.schema store.old) snap.old.table) }
    requires rows { IsTable (R.schema store.old) snap.old.table rows.now }
    ensures refreshed { RefreshesTo snap.old.table rows.now
        (record { schema = R.schema store.old; tables = R.tables store.old; spare = R.spare store.old })
        (record { schema = R.schema store.new; tables = R.tables store.new; spare = R.spare store.new }) result }
    ensures renewed { OnOk result (snap.new ≡ renewed moment snap.old) }
    ensures same { OnErr result (snap.new ≡ snap.old) }
{
    holds_tables(store);
    let plan = plan_rows(alloc, store, snap.table, rows)?;
    let changes = carry_out(alloc, store, snap.table, plan)?;
    renew(alloc, snap, moment);
    Ok(changes)
}
