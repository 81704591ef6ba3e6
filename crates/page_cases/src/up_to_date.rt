//! Whether rows show what is up to date at a master: those that neither have a pending key nor wait for a pending parent.
ghost use Rattle.std.specs.Prelude.{◌≡◌, ◌<◌, ◌++◌, [], length, map, slice_get, option_to_list, IsTrue, IfOk, OnOk};
ghost use Rattle.rep_schema.specs.Tables.{columns_of, key_of, rows_of, IsKeyed, IsTable};
ghost use Rattle.rep_schema.specs.Groups.{are_same};
ghost use Rattle.snapshot_query.specs.Parents.{parent_key, has_parent};
ghost use Rattle.refreshes.specs.Showing.{has_key, ShowsOthers};
ghost use Rattle.subquery_snapshots.specs.Rules.{rows_of_parents};

use crate::refreshed::snapshot_of;
use case_reader::CaseStop;
use refreshes::{refresh_complete, shows_others};
use rep_lists::{Copies, Items, NoMemory};
use rep_schema::{RowStore, Schema, holds_tables, key_in, values_at};
use rep_values::{Key, Row, Value, same_values};
use row_tables::ListTables;
use snapshot_query::{Parent, Query};
use std::alloc::Global;
use subquery_snapshots::{Rule, rows_full};

/// The query that every row passes.
pub fn any_row(alloc: Global) -> Query
    ensures { result.tests ≡ [] }
{
    Query {
        tests: Items::new(alloc),
    }
}

fn is_same(values: &[Value], key: &Key) -> bool
    ensures { result ≡ are_same values.now key.now }
{
    same_values(values, key.values())
}

fn is_among(keys: &[Key], values: &[Value]) -> bool
    ensures { result ≡ has_key values.now keys.now }
{
    keys.iter().any(|key| is_same(values, key))
}

/// Whether a row's parent is one of these.
fn waits(alloc: Global, parent: &Parent, parents: &[Key], row: &Row) -> Result<bool, NoMemory>
    ensures { IfOk result (λ waits. waits ≡ has_key (parent_key parent.now row.now) parents.now) }
{
    let values = values_at(alloc, parent.columns.as_slice(), row.values())?;
    Ok(is_among(parents, values.as_slice()))
}

/// Adds the key of the row at a place, where its parent is one of these.
fn push_waiting<R: RowStore>(
    alloc: Global,
    keys: &mut Items<Key>,
    master: &R,
    table: u32,
    parent: &Parent,
    parents: &[Key],
    place: u64,
) -> Result<(), NoMemory>
    requires table { table < length (R.schema master.now).tables }
    requires keyed { IsKeyed (columns_of (R.schema master.now) table) }
    requires place { place < length (rows_of (R.tables master.now) table) }
    ensures { OnOk result (keys.new ≡ keys.old ++ map (key_of (columns_of (R.schema master.now) table)) (rows_of_parents parent.now parents.now (option_to_list (slice_get (rows_of (R.tables master.now) table) place)))) }
{
    holds_tables(master);
    let Some(row) = master.row_in_order(table, place) else {
        unreachable!()
    };
    let waiting = waits(alloc, parent, parents, row)?;
    if waiting {
        keys.push(key_in(master.schema(), table, row))?;
    }
    Ok(())
}

/// These keys, and those of the rows whose parent is one of these.
pub fn with_waiting<R: RowStore>(
    alloc: Global,
    master: &R,
    table: u32,
    parent: &Parent,
    keys: &Items<Key>,
    parents: &[Key],
) -> Result<Items<Key>, NoMemory>
    requires table { table < length (R.schema master.now).tables }
    requires keyed { IsKeyed (columns_of (R.schema master.now) table) }
    ensures { IfOk result (λ all. all ≡ keys.now ++ map (key_of (columns_of (R.schema master.now) table)) (rows_of_parents parent.now parents.now (rows_of (R.tables master.now) table))) }
{
    let mut all = keys.copy(alloc)?;
    for place in 0..master.count(table) {
        push_waiting(alloc, &mut all, master, table, parent, parents, place)?;
    }
    Ok(all)
}

/// Tables in lists, of which one has these rows.
fn tables_with(
    alloc: Global,
    schema: &Schema,
    table: u32,
    rows: &[Row],
) -> Result<ListTables, CaseStop>
    requires table { table < length schema.now.tables }
    requires keyed { IsKeyed (columns_of schema.now table) }
    requires rows { IsTable schema.now table rows.now }
    ensures schema { IfOk result (λ made. made.schema ≡ schema.now) }
    ensures rows { IfOk result (λ made. rows_of made.tables table ≡ rows.now) }
{
    let mut made = ListTables::make(alloc, schema.copy(alloc)?)?;
    let mut snap = snapshot_of(alloc, table)?;
    refresh_complete(alloc, &mut snap, &mut made, rows, 1)?;
    Ok(made)
}

/// Whether older rows have, under each key but these, what the rule shows of the master's row.
pub fn shows_but<R: RowStore>(
    alloc: Global,
    master: &R,
    older: &ListTables,
    table: u32,
    parent: &Parent,
    keys: &[Key],
) -> Result<bool, CaseStop>
    requires table { table < length (R.schema master.now).tables }
    requires keyed { IsKeyed (columns_of (R.schema master.now) table) }
    requires parent { parent.now.table < length (R.schema master.now).tables }
    requires keys { IsKeyed (columns_of (R.schema master.now) parent.now.table) }
    requires schema { older.now.schema ≡ R.schema master.now }
    ensures { IfOk result (λ shows. IsTrue shows → ShowsOthers (columns_of (R.schema master.now) table) (has_parent (R.schema master.now) (R.tables master.now) parent.now) keys.now
        (rows_of (R.tables master.now) table) (rows_of older.now.tables table)) }
{
    holds_tables(master);
    let rows = rows_full(alloc, master, table, &Rule::Parent(parent))?;
    let wanted = tables_with(alloc, master.schema(), table, rows.as_slice())?;
    let any = any_row(alloc);
    Ok(shows_others(&any, older, &wanted, table, keys))
}
