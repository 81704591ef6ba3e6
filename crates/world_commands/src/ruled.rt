//! The rows that snapshots pick of their master's tables: anew, or by the master's logs.
ghost use Rattle.std.specs.Prelude.{◌≡◌, ◌+◌, ◌<◌, sum, map, length, false, IfOk};
ghost use Rattle.std.specs.List.{AllByRecursion};
ghost use Rattle.rep_schema.specs.Tables.{rows_of};
ghost use Rattle.snapshot_query.specs.Parents.{rule_rows};
ghost use Rattle.change_logs.specs.Noting.{log_of, keys_in, logged_above};
ghost use Rattle.site_state.specs.Fits.{SchemaIsKeyed, AreWithin};
ghost use Rattle.site_events.specs.Rules.{rows_ruled, pending_parents, looked_up, HaveNoParents, IsParentWithin};
ghost use Rattle.world_commands.specs.Ruled.{IsRuleOf, CanRenew, CanRenewEach};

use change_logs::{Notes, Watched};
use page_tables::PageTables;
use refreshes::rows_shown;
use rep_lists::{Items, NoMemory};
use rep_schema::RowStore;
use rep_values::{Key, Row};
use site_state::TableRows;
use snapshot_query::Query;
use std::alloc::Global;
use subquery_snapshots::{CountedRows, Rule, rows_fast, rows_full, subquery_laws};

/// The rows that a snapshot picks of a master's tables.
fn rows_of_one(
    alloc: Global,
    snapshot: &Watched,
    master: &PageTables,
) -> Result<Items<Row>, NoMemory>
    requires keyed { SchemaIsKeyed master.now.schema }
    requires within { snapshot.now.snapshot.table < length master.now.schema.tables }
    requires parents { IsParentWithin master.now.schema snapshot.now.snapshot.parent }
    ensures { IfOk result (λ rows. rows ≡ rule_rows master.now.schema master.now.tables snapshot.now.snapshot) }
{
    let table = snapshot.table();
    match snapshot.parent() {
        Some(parent) => rows_full(alloc, master, table, &Rule::Parent(parent)),
        None => rows_shown(alloc, snapshot.query(), master, table),
    }
}

/// The rows that snapshots pick of a master's tables.
pub(crate) fn rows_of_each(
    alloc: Global,
    snapshots: &Notes,
    master: &PageTables,
) -> Result<Items<TableRows>, NoMemory>
    requires keyed { SchemaIsKeyed master.now.schema }
    requires within { AreWithin master.now.schema snapshots.now.snapshots }
    requires parents { AllByRecursion (λ s. IsParentWithin master.now.schema s.parent) snapshots.now.snapshots }
    ensures { IfOk result (λ rows. rows ≡ rows_ruled master.now.schema master.now.tables snapshots.now.snapshots) }
{
    let mut shown = Items::new(alloc);
    for place in 0..snapshots.snapshot_count() {
        let snapshot = snapshots.snapshot_at(place);
        let table = snapshot.table();
        let rows = rows_of_one(alloc, snapshot, master)?;
        shown.push(TableRows { table, rows })?;
    }
    Ok(shown)
}

/// Whether some snapshot has a parent.
pub(crate) fn have_parents(snapshots: &Notes) -> bool
    ensures { result ≡ false → HaveNoParents snapshots.now.snapshots }
{
    for place in 0..snapshots.snapshot_count() {
        if snapshots.snapshot_at(place).parent().is_some() {
            return true;
        }
    }
    false
}

/// The keys that a table's log has above a mark. No log stands for an empty one.
fn logged_above(alloc: Global, logs: &Notes, table: u32, mark: u64) -> Result<Items<Key>, NoMemory>
    ensures { IfOk result (λ keys. keys ≡ logged_above mark (keys_in (log_of table logs.now.logs))) }
{
    match logs.log(table) {
        Some(log) => log.pending(alloc, mark),
        None => Ok(Items::new(alloc)),
    }
}

/// The keys of the pending parents of a snapshot, by its master's logs.
fn pending_parents(alloc: Global, logs: &Notes, snapshot: &Watched) -> Result<Items<Key>, NoMemory>
    ensures { IfOk result (λ keys. keys ≡ pending_parents logs.now.logs snapshot.now.snapshot) }
{
    match snapshot.parent() {
        Some(parent) => logged_above(alloc, logs, parent.table, snapshot.mark()),
        None => Ok(Items::new(alloc)),
    }
}

/// All rows of a table.
fn all_rows(alloc: Global, store: &PageTables, table: u32) -> Result<Items<Row>, NoMemory>
    requires { table < length store.now.schema.tables }
    ensures { IfOk result (λ rows. rows ≡ rows_of store.now.tables table) }
{
    let any = Query {
        tests: Items::new(alloc),
    };
    rows_shown(alloc, &any, store, table)
}

/// Which rows a snapshot shows.
fn rule_of(snapshot: &Watched) -> Rule<'_>
    ensures { IsRuleOf snapshot.now.snapshot.query snapshot.now.snapshot.parent result }
{
    match snapshot.parent() {
        Some(parent) => Rule::Parent(parent),
        None => Rule::Whole(snapshot.query()),
    }
}

/// A sum. One that its type can't hold, which so many keys never make, is answered as want of memory.
fn sum_of(one: u64, other: u64) -> Result<u64, NoMemory>
    ensures { IfOk result (λ sum. sum ≡ one + other) }
{
    one.checked_add(other).ok_or(NoMemory)
}

/// The rows of a snapshot, and how many keys and parents were looked up for them.
#[derive(Drop)]
struct Renewed {
    rows: Items<Row>,
    looked_up: u64,
}

/// The rows that a snapshot picks of a master's tables, made from those of its own table by the pending keys and parents.
fn rows_by_logs(
    alloc: Global,
    snapshot: &Watched,
    own: &PageTables,
    master: &PageTables,
    logs: &Notes,
) -> Result<Renewed, NoMemory>
    requires { CanRenew own.now.schema logs.now.logs master.now.schema master.now.tables own.now.tables snapshot.now.snapshot }
    ensures rows { IfOk result (λ renewed. renewed.rows ≡ rule_rows own.now.schema master.now.tables snapshot.now.snapshot) }
    ensures counted { IfOk result (λ renewed. renewed.looked_up ≡ looked_up logs.now.logs snapshot.now.snapshot) }
{
    subquery_laws();
    let table = snapshot.table();
    let keys = snapshot.pending_keys(alloc, logs.log(table))?;
    let parents = pending_parents(alloc, logs, snapshot)?;
    let looked_up = sum_of(keys.len() as u64, parents.len() as u64)?;
    let older = all_rows(alloc, own, table)?;
    let rule = rule_of(snapshot);
    let mut view = CountedRows::of(master);
    let rows = rows_fast(
        alloc,
        own.schema(),
        table,
        &rule,
        older.as_slice(),
        &mut view,
        keys.as_slice(),
        parents.as_slice(),
    )?;
    Ok(Renewed { rows, looked_up })
}

/// The rows of snapshots, and how many keys and parents were looked up for them.
#[derive(Drop)]
pub(crate) struct MadeByLogs {
    pub rows: Items<TableRows>,
    pub looked_up: u64,
}

/// The rows that the snapshots of a site pick of a master's tables, made from the site's by its master's logs.
pub(crate) fn rows_of_each_by_logs(
    alloc: Global,
    snapshots: &Notes,
    own: &PageTables,
    master: &PageTables,
    logs: &Notes,
) -> Result<MadeByLogs, NoMemory>
    requires { CanRenewEach own.now.schema logs.now.logs master.now.schema master.now.tables own.now.tables snapshots.now.snapshots }
    ensures rows { IfOk result (λ made. made.rows ≡ rows_ruled own.now.schema master.now.tables snapshots.now.snapshots) }
    ensures counted { IfOk result (λ made. made.looked_up ≡ sum (map (looked_up logs.now.logs) snapshots.now.snapshots)) }
{
    let mut rows = Items::new(alloc);
    let mut looked_up = 0;
    for place in 0..snapshots.snapshot_count() {
        let snapshot = snapshots.snapshot_at(place);
        let renewed = rows_by_logs(alloc, snapshot, own, master, logs)?;
        looked_up = sum_of(looked_up, renewed.looked_up)?;
        rows.push(TableRows {
            table: snapshot.table(),
            rows: renewed.rows,
        })?;
    }
    Ok(MadeByLogs { rows, looked_up })
}
