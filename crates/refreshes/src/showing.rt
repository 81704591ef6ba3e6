//! What a query shows of a master's rows.
ghost use Rattle.std.specs.Prelude.{◌≡◌, ◌<◌, ◌++◌, ◌↔◌, length, slice_get, option_copied, option_to_list, IsTrue, IfOk, OnOk};
ghost use Rattle.std.specs.List.{AllByRecursion};
ghost use Rattle.rep_schema.specs.Tables.{columns_of, key_of, find_row, rows_of, RowFits, IsKeyed, IsTable};
ghost use Rattle.rep_schema.specs.Groups.{are_same};
ghost use Rattle.rep_schema.specs.Putting.{is_unchanged};
ghost use Rattle.snapshot_query.specs.Queries.{matches, query_rows};
ghost use Rattle.refreshes.specs.Showing.{shown, has_key, ShowsKey, ShowsOthers, FindsWhatIsShown, PicksTables};

use rep_lists::{Copies, Items, NoMemory};
use rep_schema::{RowStore, holds_tables, key_in};
use rep_values::{Key, Row, same_values};
use snapshot_query::Query;
use std::alloc::Global;

/// What a test of rows, such as a query's, picks from a table is a table, and under each key it has what the test shows of the
/// table's row.
pub fn query_laws()
    ensures finds { FindsWhatIsShown }
    ensures tables { PicksTables }
{}

/// Whether it is the same row, or none both times.
pub(crate) fn are_same(present: Option<&Row>, wanted: Option<&Row>) -> bool
    ensures { result ≡ is_unchanged (option_copied present.entry) (option_copied wanted.entry) }
{
    match (present, wanted) {
        (None, None) => true,
        (Some(a), Some(b)) => same_values(a.values(), b.values()),
        (None, Some(_)) | (Some(_), None) => false,
    }
}

/// What a query shows of a row that is or isn't there.
pub(crate) fn shown<'a>(query: &Query, row: Option<&'a Row>) -> Option<&'a Row>
    ensures { option_copied result ≡ shown query.now (option_copied row.entry) }
{
    let found = row?;
    if query.matches(found) {
        Some(found)
    } else {
        None
    }
}

/// Adds the row at a place, where a query picks it.
fn push_shown<R: RowStore>(
    alloc: Global,
    rows: &mut Items<Row>,
    query: &Query,
    store: &R,
    table: u32,
    place: u64,
) -> Result<(), NoMemory>
    requires table { table < length (R.schema store.now).tables }
    requires place { place < length (rows_of (R.tables store.now) table) }
    ensures { OnOk result (rows.new ≡ rows.old ++ query_rows query.now (option_to_list (slice_get (rows_of (R.tables store.now) table) place))) }
{
    let Some(row) = store.row_in_order(table, place) else {
        unreachable!()
    };
    if query.matches(row) {
        rows.push(row.copy(alloc)?)?;
    }
    Ok(())
}

/// Copies of the rows that a query picks from a table, in their order. They are a table too.
pub fn rows_shown<R: RowStore>(
    alloc: Global,
    query: &Query,
    store: &R,
    table: u32,
) -> Result<Items<Row>, NoMemory>
    requires { table < length (R.schema store.now).tables }
    ensures rows { IfOk result (λ rows. rows ≡ query_rows query.now (rows_of (R.tables store.now) table)) }
    ensures table { IfOk result (λ rows. IsTable (R.schema store.now) table rows) }
{
    holds_tables(store);
    let mut rows = Items::new(alloc);
    for place in 0..store.count(table) {
        push_shown(alloc, &mut rows, query, store, table, place)?;
    }
    Ok(rows)
}

fn is_same(key: &Key, other: &Key) -> bool
    ensures { result ≡ are_same key.now other.now }
{
    same_values(key.values(), other.values())
}

fn is_among(keys: &[Key], key: &Key) -> bool
    ensures { result ≡ has_key key.now keys.now }
{
    keys.iter().any(|other| is_same(key, other))
}

/// Whether a store has, under the key of a row, what a query shows of the master's row; under one of these keys it
/// needn't.
fn shows_row<R: RowStore, S: RowStore>(
    query: &Query,
    store: &R,
    master: &S,
    table: u32,
    keys: &[Key],
    row: &Row,
) -> bool
    requires table { table < length (R.schema store.now).tables }
    requires keyed { IsKeyed (columns_of (R.schema store.now) table) }
    requires schema { S.schema master.now ≡ R.schema store.now }
    requires fits { RowFits (columns_of (R.schema store.now) table) row.now }
    ensures { IsTrue result
        ↔ ShowsKey (columns_of (R.schema store.now) table) (matches query.now) keys.now (rows_of (S.tables master.now) table) (rows_of (R.tables store.now) table) (key_of (columns_of (R.schema store.now) table) row.now) }
{
    let key = key_in(store.schema(), table, row);
    is_among(keys, &key)
        || are_same(
            store.get(table, &key),
            shown(query, master.get(table, &key)),
        )
}

/// Whether that is so for each row of a third store of the schema, which may be one of the two.
fn shows_each<W: RowStore, R: RowStore, S: RowStore>(
    walked: &W,
    query: &Query,
    store: &R,
    master: &S,
    table: u32,
    keys: &[Key],
) -> bool
    requires table { table < length (R.schema store.now).tables }
    requires keyed { IsKeyed (columns_of (R.schema store.now) table) }
    requires walked { W.schema walked.now ≡ R.schema store.now }
    requires schema { S.schema master.now ≡ R.schema store.now }
    ensures { IsTrue result
        ↔ AllByRecursion (λ row. ShowsKey (columns_of (R.schema store.now) table) (matches query.now) keys.now (rows_of (S.tables master.now) table) (rows_of (R.tables store.now) table) (key_of (columns_of (R.schema store.now) table) row)) (rows_of (W.tables walked.now) table) }
{
    holds_tables(walked);
    for place in 0..walked.count(table) {
        let Some(row) = walked.row_in_order(table, place) else {
            unreachable!()
        };
        if !shows_row(query, store, master, table, keys, row) {
            return false;
        }
    }
    true
}

/// Whether a store's table has, under each key but these, what a query shows of the master's table. It goes through
/// both tables.
pub fn shows_others<R: RowStore, S: RowStore>(
    query: &Query,
    store: &R,
    master: &S,
    table: u32,
    keys: &[Key],
) -> bool
    requires table { table < length (R.schema store.now).tables }
    requires keyed { IsKeyed (columns_of (R.schema store.now) table) }
    requires schema { S.schema master.now ≡ R.schema store.now }
    ensures { IsTrue result
        ↔ ShowsOthers (columns_of (R.schema store.now) table) (matches query.now) keys.now (rows_of (S.tables master.now) table) (rows_of (R.tables store.now) table) }
{
    shows_each(store, query, store, master, table, keys)
        && shows_each(master, query, store, master, table, keys)
}
