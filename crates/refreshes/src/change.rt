//! Rows that go and rows that come, and the changes that this makes.
ghost use Rattle.std.specs.Prelude.{◌≡◌, ◌≢◌, ℕ, ◌+◌, ◌<◌, ◌≤◌, [], ◌∷◌, ◌++◌, length, slice_index, slice_set, vec_len, vec_capacity, Some, IfOk, OnOk, OnErr};
ghost use Rattle.rep_schema.specs.Tables.{columns_of, find_row, put_row, take_row, rows_of, RowFits, IsKeyed, IsUniqueRow};
ghost use Rattle.rep_schema.specs.Changes.{row_like};
ghost use Rattle.rep_schema.specs.Putting.{changes_of};
ghost use Rattle.refreshes.specs.Planned.{rows_left, rows_with, taking, takings, puttings, CanCome};

use crate::plan::{NewRow, Plan};
use rep_lists::{Items, NoMemory};
use rep_schema::{Change, Changes, RowStore, holds_tables, push_change};
use rep_values::{Key, Row};
use std::alloc::Global;

fn taken_change(table: u32, before: Option<Row>) -> Option<Change>
    ensures { changes_of result ≡ taking table before }
{
    let row = before?;
    Some(Change {
        table,
        before: Some(row),
        after: None,
    })
}

/// Takes the row of a key, where there is one.
fn take_one<R: RowStore>(store: &mut R, table: u32, key: &Key, done: &mut Vec<Change>)
    requires table { table < length (R.schema store.old).tables }
    requires room { vec_len done.old < vec_capacity done.old }
    ensures tables { R.tables store.new ≡ slice_set (R.tables store.old) table (take_row (columns_of (R.schema store.old) table) key.now (rows_of (R.tables store.old) table)) }
    ensures changes { done.new.items ≡ done.old.items ++ taking table (find_row (columns_of (R.schema store.old) table) key.now (rows_of (R.tables store.old) table)) }
    ensures number { vec_len done.new ≤ vec_len done.old + 1 }
    ensures capacity { vec_capacity done.new ≡ vec_capacity done.old }
    ensures schema { R.schema store.new ≡ R.schema store.old }
    ensures room { slice_index (R.spare store.old) table ≤ slice_index (R.spare store.new) table }
    ensures others { (t : ℕ) → t ≢ table → slice_index (R.spare store.new) t ≡ slice_index (R.spare store.old) t }
{
    let change = taken_change(table, store.take(table, key));
    push_change(done, change);
}

/// Takes the rows of these keys, one after the other.
fn take_each<R: RowStore>(store: &mut R, table: u32, gone: &[Key], done: &mut Vec<Change>)
    requires table { table < length (R.schema store.old).tables }
    requires room { vec_len done.old + length gone.now ≤ vec_capacity done.old }
    ensures tables { R.tables store.new ≡ slice_set (R.tables store.old) table (rows_left (columns_of (R.schema store.old) table) gone.now (rows_of (R.tables store.old) table)) }
    ensures changes { done.new.items ≡ done.old.items ++ takings table (columns_of (R.schema store.old) table) gone.now (rows_of (R.tables store.old) table) }
    ensures number { vec_len done.new ≤ vec_len done.old + length gone.now }
    ensures capacity { vec_capacity done.new ≡ vec_capacity done.old }
    ensures schema { R.schema store.new ≡ R.schema store.old }
    ensures room { slice_index (R.spare store.old) table ≤ slice_index (R.spare store.new) table }
    ensures others { (t : ℕ) → t ≢ table → slice_index (R.spare store.new) t ≡ slice_index (R.spare store.old) t }
{
    holds_tables(store);
    for key in gone {
        take_one(store, table, key, done);
    }
}

/// Puts a row.
fn put_one<R: RowStore>(store: &mut R, table: u32, new: NewRow, done: &mut Vec<Change>)
    requires table { table < length (R.schema store.old).tables }
    requires keyed { IsKeyed (columns_of (R.schema store.old) table) }
    requires fits { RowFits (columns_of (R.schema store.old) table) new }
    requires unique { IsUniqueRow (R.schema store.old) table new (rows_of (R.tables store.old) table) }
    requires room { 1 ≤ slice_index (R.spare store.old) table }
    requires capacity { vec_len done.old < vec_capacity done.old }
    ensures tables { R.tables store.new ≡ slice_set (R.tables store.old) table (put_row (columns_of (R.schema store.old) table) new (rows_of (R.tables store.old) table)) }
    ensures changes { done.new.items ≡ done.old.items ++ record { table = table; before = row_like (columns_of (R.schema store.old) table) new (rows_of (R.tables store.old) table); after = Some new } ∷ [] }
    ensures number { vec_len done.new ≡ vec_len done.old + 1 }
    ensures capacity { vec_capacity done.new ≡ vec_capacity done.old }
    ensures schema { R.schema store.new ≡ R.schema store.old }
    ensures room { slice_index (R.spare store.old) table ≤ slice_index (R.spare store.new) table + 1 }
    ensures others { (t : ℕ) → t ≢ table → slice_index (R.spare store.new) t ≡ slice_index (R.spare store.old) t }
{
    let (row, kept) = new.both();
    let before = store.put(table, row);
    done.push_reserved(Change {
        table,
        before,
        after: Some(kept),
    });
}

/// Puts these rows, one after the other.
fn put_each<R: RowStore>(store: &mut R, table: u32, come: Vec<NewRow>, done: &mut Vec<Change>)
    requires table { table < length (R.schema store.old).tables }
    requires keyed { IsKeyed (columns_of (R.schema store.old) table) }
    requires can { CanCome (R.schema store.old) table come.items (rows_of (R.tables store.old) table) }
    requires room { length come.items ≤ slice_index (R.spare store.old) table }
    requires capacity { vec_len done.old + length come.items ≤ vec_capacity done.old }
    ensures tables { R.tables store.new ≡ slice_set (R.tables store.old) table (rows_with (columns_of (R.schema store.old) table) come.items (rows_of (R.tables store.old) table)) }
    ensures changes { done.new.items ≡ done.old.items ++ puttings table (columns_of (R.schema store.old) table) come.items (rows_of (R.tables store.old) table) }
    ensures schema { R.schema store.new ≡ R.schema store.old }
    ensures room { slice_index (R.spare store.old) table ≤ slice_index (R.spare store.new) table + length come.items }
    ensures others { (t : ℕ) → t ≢ table → slice_index (R.spare store.new) t ≡ slice_index (R.spare store.old) t }
{
    holds_tables(store);
    for new in come {
        put_one(store, table, new, done);
    }
}

/// Carries a plan out: the rows that go are taken first, so that none of their values bars one that comes. Where there
/// is no memory, the store's rows are as before.
pub(crate) fn carry_out<R: RowStore>(
    alloc: Global,
    store: &mut R,
    table: u32,
    plan: Plan,
) -> Result<Changes, NoMemory>
    requires table { table < length (R.schema store.old).tables }
    requires keyed { IsKeyed (columns_of (R.schema store.old) table) }
    requires can { CanCome (R.schema store.old) table plan.come.items (rows_left (columns_of (R.schema store.old) table) plan.gone.items (rows_of (R.tables store.old) table)) }
    ensures tables { OnOk result (R.tables store.new ≡ slice_set (R.tables store.old) table
        (rows_with (columns_of (R.schema store.old) table) plan.come.items (rows_left (columns_of (R.schema store.old) table) plan.gone.items (rows_of (R.tables store.old) table)))) }
    ensures changes { IfOk result (λ changes. changes.rows ≡ takings table (columns_of (R.schema store.old) table) plan.gone.items (rows_of (R.tables store.old) table)
        ++ puttings table (columns_of (R.schema store.old) table) plan.come.items (rows_left (columns_of (R.schema store.old) table) plan.gone.items (rows_of (R.tables store.old) table))) }
    ensures room { OnOk result (length plan.gone.items ≤ slice_index (R.spare store.new) table) }
    ensures same { OnErr result (R.tables store.new ≡ R.tables store.old) }
    ensures kept { OnErr result (slice_index (R.spare store.old) table ≤ slice_index (R.spare store.new) table) }
    ensures schema { R.schema store.new ≡ R.schema store.old }
    ensures others { (t : ℕ) → t ≢ table → slice_index (R.spare store.new) t ≡ slice_index (R.spare store.old) t }
{
    holds_tables(store);
    let Plan { gone, come } = plan;
    // The room comes first: for the rows that come, and for those that go, so that they can be put back.
    let number = gone.len() + come.len();
    let mut done = Vec::with_capacity(alloc, number)?;
    store.reserve(table, number as u64)?;
    take_each(store, table, &gone, &mut done);
    put_each(store, table, come, &mut done);
    Ok(Changes {
        rows: Items::from_vec(done),
    })
}
