//! Rows put into a store, and the changes that this makes.
ghost use Rattle.std.specs.Prelude.{◌≡◌, ℕ, ◌+◌, ◌<◌, ◌≤◌, ◌==◌, ◌++◌, [], cond, length, slice_index, vec_len, vec_capacity, Some, IfOk, OnErr};
ghost use Rattle.rep_schema.specs.Tables.{columns_of, key_of, find_row, rows_of, RowFits, IsKeyed, IsUniqueRow, AreTables};
ghost use Rattle.rep_schema.specs.Changes.{after_change, row_like};
ghost use Rattle.rep_schema.specs.Putting.{is_unchanged, changes_between, changes_of, StepsIn};

use crate::{Change, RowStore, key_in};
use rep_lists::{Copies, NoMemory};
use rep_values::{Key, Row, same_values};
use std::alloc::Global;

/// A store's rows are tables of its schema.
pub fn holds_tables<R: RowStore>(store: &R)
    ensures { AreTables (R.schema store.now) (R.tables store.now) }
{
    let _schema = store.schema();
}

/// A copy of the row with a key; None exactly where no row has it.
pub fn copy_of_row<R: RowStore>(
    alloc: Global,
    store: &R,
    table: u32,
    key: &Key,
) -> Result<Option<Row>, NoMemory>
    requires { table < length (R.schema store.now).tables }
    ensures { IfOk result (λ found. found ≡ find_row (columns_of (R.schema store.now) table) key.now (rows_of (R.tables store.now) table)) }
{
    match store.get(table, key) {
        None => Ok(None),
        Some(found) => Ok(Some(found.copy(alloc)?)),
    }
}

/// Whether the very same row stands in a table.
fn is_there<R: RowStore>(store: &R, table: u32, row: &Row) -> bool
    requires table { table < length (R.schema store.now).tables }
    requires keyed { IsKeyed (columns_of (R.schema store.now) table) }
    requires fits { RowFits (columns_of (R.schema store.now) table) row.now }
    ensures { result ≡ is_unchanged (row_like (columns_of (R.schema store.now) table) row.now (rows_of (R.tables store.now) table)) (Some row.now) }
{
    match store.get(table, &key_in(store.schema(), table, row)) {
        Some(found) => same_values(found.values(), row.values()),
        None => false,
    }
}

/// Puts a row, and answers the change, also where the very same row was there. Where there is no memory, nothing is
/// changed.
pub fn put_with_change<R: RowStore>(
    alloc: Global,
    store: &mut R,
    table: u32,
    row: Row,
) -> Result<Change, NoMemory>
    requires table { table < length (R.schema store.old).tables }
    requires keyed { IsKeyed (columns_of (R.schema store.old) table) }
    requires fits { RowFits (columns_of (R.schema store.old) table) row }
    requires unique { IsUniqueRow (R.schema store.old) table row (rows_of (R.tables store.old) table) }
    requires room { 1 ≤ slice_index (R.spare store.old) table }
    ensures ok { IfOk result (λ change. change ≡ record { table = table; before = row_like (columns_of (R.schema store.old) table) row (rows_of (R.tables store.old) table); after = Some row }) }
    ensures tables { IfOk result (λ change. R.tables store.new ≡ after_change (R.schema store.old) change (R.tables store.old)) }
    ensures same { OnErr result (R.tables store.new ≡ R.tables store.old) }
    ensures same_room { OnErr result (R.spare store.new ≡ R.spare store.old) }
    ensures schema { R.schema store.new ≡ R.schema store.old }
    ensures room { (t : ℕ) → slice_index (R.spare store.old) t ≤ slice_index (R.spare store.new) t + cond (t == table) 1 0 }
{
    let kept = row.copy(alloc)?;
    let before = store.put(table, row);
    Ok(Change {
        table,
        before,
        after: Some(kept),
    })
}

/// Puts a row where it isn't there yet, and answers the change. Where there is no memory, nothing is changed.
pub fn put_if_changed<R: RowStore>(
    alloc: Global,
    store: &mut R,
    table: u32,
    row: Row,
) -> Result<Option<Change>, NoMemory>
    requires table { table < length (R.schema store.old).tables }
    requires keyed { IsKeyed (columns_of (R.schema store.old) table) }
    requires fits { RowFits (columns_of (R.schema store.old) table) row }
    requires unique { IsUniqueRow (R.schema store.old) table row (rows_of (R.tables store.old) table) }
    requires room { 1 ≤ slice_index (R.spare store.old) table }
    ensures ok { IfOk result (λ change. changes_of change
        ≡ changes_between table (row_like (columns_of (R.schema store.old) table) row (rows_of (R.tables store.old) table)) (Some row)) }
    ensures step { StepsIn table (record { schema = R.schema store.old; tables = R.tables store.old; spare = R.spare store.old })
        (record { schema = R.schema store.new; tables = R.tables store.new; spare = R.spare store.new }) result }
{
    if is_there(store, table, &row) {
        return Ok(None);
    }
    Ok(Some(put_with_change(alloc, store, table, row)?))
}

/// Adds a change, where there is one. There is room for it, so this never fails.
pub fn push_change(done: &mut Vec<Change>, change: Option<Change>)
    requires { vec_len done.old < vec_capacity done.old }
    ensures items { done.new.items ≡ done.old.items ++ changes_of change }
    ensures number { vec_len done.new ≤ vec_len done.old + 1 }
    ensures capacity { vec_capacity done.new ≡ vec_capacity done.old }
{
    if let Some(change) = change {
        done.push_reserved(change);
    }
}
