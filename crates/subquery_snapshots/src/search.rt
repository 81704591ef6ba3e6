//! The children of a parent in a store: the first one above a key, from which the search begins.
ghost use Rattle.std.specs.Prelude.{◌≡◌, ◌<◌, length, drop, find, slice_get, Some, option_copied};
ghost use Rattle.rep_schema.specs.Tables.{Cells, columns_of, rows_of};
ghost use Rattle.subquery_snapshots.specs.Children.{is_child, is_above, rows_above, child_above};

use crate::placed::PlacedRows;
use rep_schema::{Column, columns_of, compare_row, has_values};
use rep_values::{Key, Row};

/// Whether a row is a child of a parent.
fn is_child(columns: &[u32], parent: &Key, row: &Row) -> bool
    ensures { result ≡ is_child columns.now parent.now row.now }
{
    has_values(columns, parent.values(), row.values())
}

/// Whether the row at a place stands above a key.
fn is_above<S: PlacedRows>(store: &S, table: u32, columns: &[Column], place: u64, key: &Key) -> bool
    requires table { table < length (S.schema store.now).tables }
    requires place { place < length (rows_of (S.tables store.now) table) }
    ensures { (row : Cells) → slice_get (rows_of (S.tables store.now) table) place ≡ Some row → result ≡ is_above columns.now (Some key.now) row }
{
    let Some(row) = store.row_in_order(table, place) else {
        unreachable!()
    };
    compare_row(columns, key.values(), row.values()).is_gt()
}

/// The place from which on the rows stand above a key. It is found in as many steps as their number can be halved.
fn place_behind<S: PlacedRows>(store: &S, table: u32, key: &Key) -> u64
    requires { table < length (S.schema store.now).tables }
    ensures { drop result (rows_of (S.tables store.now) table)
        ≡ rows_above (columns_of (S.schema store.now) table) (Some key.now) (rows_of (S.tables store.now) table) }
{
    let columns = columns_of(store.schema(), table);
    let mut low = 0;
    let mut high = store.count(table);
    while low < high {
        let middle = low + (high - low) / 2;
        if is_above(store, table, columns, middle, key) {
            high = middle;
        } else {
            low = middle + 1;
        }
    }
    low
}

/// The place from which on the rows stand above a key; the first one, where there is no key.
fn place_above<S: PlacedRows>(store: &S, table: u32, above: Option<&Key>) -> u64
    requires { table < length (S.schema store.now).tables }
    ensures { drop result (rows_of (S.tables store.now) table)
        ≡ rows_above (columns_of (S.schema store.now) table) (option_copied above.entry) (rows_of (S.tables store.now) table) }
{
    match above {
        Some(key) => place_behind(store, table, key),
        None => 0,
    }
}

/// The first child of a parent from a place on.
fn child_from<'a, S: PlacedRows>(
    store: &'a S,
    table: u32,
    columns: &[u32],
    parent: &Key,
    first: u64,
) -> Option<&'a Row>
    requires { table < length (S.schema store.now).tables }
    ensures { option_copied result ≡ find (is_child columns.now parent.now) (drop first (rows_of (S.tables store.now) table)) }
{
    for place in first..store.count(table) {
        let Some(row) = store.row_in_order(table, place) else {
            unreachable!()
        };
        if is_child(columns, parent, row) {
            return Some(row);
        }
    }
    None
}

/// The first child of a parent above a key, or of all where there is no key.
pub(crate) fn child_above<'a, S: PlacedRows>(
    store: &'a S,
    table: u32,
    columns: &[u32],
    parent: &Key,
    above: Option<&Key>,
) -> Option<&'a Row>
    requires { table < length (S.schema store.now).tables }
    ensures { option_copied result
        ≡ child_above (columns_of (S.schema store.now) table) columns.now parent.now (option_copied above.entry) (rows_of (S.tables store.now) table) }
{
    let first = place_above(store, table, above);
    child_from(store, table, columns, parent, first)
}
