//! The rows that tables have before any site is made: a script puts them, and then they are filled in.
ghost use Rattle.std.specs.Prelude.{◌≡◌, ◌≢◌, ◌⊎◌, ℕ, ◌+◌, ◌<◌, ◌≤◌, ◌&&◌, map, length, slice_index, slice_get, slice_set, Some, None, IfOk, IfErr, OnOk, OnErr};
ghost use Rattle.rep_values.specs.declared.refusal.Refusal.TheVariants.{Memory};
ghost use Rattle.rep_values.specs.RefusalSteps.{first_refusal};
ghost use Rattle.rep_schema.specs.Shape.{HasShape};
ghost use Rattle.rep_schema.specs.Tables.{Cells, columns_of, rows_of, IsKeyed};
ghost use Rattle.rep_schema.specs.Fitting.{is_keyed};
ghost use Rattle.conflict_detect.specs.KeysNamed.{HasKeys};
ghost use Rattle.txn_effects.specs.Literals.{literals_fit};
ghost use Rattle.txn_effects.specs.Filled.{written_columns, filled_row};
ghost use Rattle.local_txn.specs.BaseRows.{base_steps, base_refusal, tables_with_row, filled_tables, FillsFreely};
ghost use Rattle.local_txn.specs.BaseSteps.{IsBaseRow, fill_count};

use crate::filled::{fill_everywhere, has_filled};
use crate::literals::{row_written, written_fit};
use crate::rows::{has_row, key_in, row_refusal};
use rep_lists::NoMemory;
use rep_schema::{RowStore, Schema, columns_of, holds_tables, is_keyed};
use rep_values::{Literal, Refusal, Row, SiteName, TableName};
use schema_names::table_place;
use std::alloc::Global;

/// Whether a table has a key, and the literals fit its columns.
fn takes_values(schema: &Schema, table: u32, values: &[Literal]) -> bool
    requires { table < length schema.now.tables }
    ensures { result ≡ (is_keyed (columns_of schema.now table) && literals_fit schema.now (written_columns (columns_of schema.now table)) values.now) }
{
    let columns = columns_of(schema, table);
    is_keyed(columns) && written_fit(schema, columns, values)
}

/// The row that literals write for a table, unless it is refused there.
fn base_row<R: RowStore>(
    alloc: Global,
    store: &R,
    table: u32,
    values: &[Literal],
) -> Result<Row, Refusal>
    requires shape { HasShape (R.schema store.now) }
    requires table { table < length (R.schema store.now).tables }
    ensures ok { IfOk result (IsBaseRow (R.schema store.now) (R.tables store.now) table values.now) }
    ensures err { IfErr result (λ why. (why ≡ Memory) ⊎ (first_refusal (base_steps (R.schema store.now) (R.tables store.now) table values.now) ≡ Some why)) }
{
    holds_tables(store);
    if !takes_values(store.schema(), table, values) {
        return Err(Refusal::RowShape);
    }
    let row = row_written(alloc, columns_of(store.schema(), table), values)?;
    if has_row(store, table, &key_in(store, table, &row)) {
        return Err(Refusal::KeyTaken);
    }
    if let Some(refusal) = row_refusal(store, table, None, &row) {
        return Err(refusal);
    }
    Ok(row)
}

/// Puts a row that a script writes into a table, before any site is made; the columns that a site fills stay blank.
/// Where it is refused, and where there is no memory, the rows are as before.
pub fn put_base_row<R: RowStore>(
    alloc: Global,
    store: &mut R,
    table: &TableName,
    values: &[Literal],
) -> Result<(), Refusal>
    requires shape { HasShape (R.schema store.old) }
    ensures ok { OnOk result (base_refusal (R.schema store.old) (R.tables store.old) table.now values.now ≡ None) }
    ensures tables { OnOk result (R.tables store.new ≡ tables_with_row (R.schema store.old) (R.tables store.old) table.now values.now) }
    ensures err { IfErr result (λ why. (why ≡ Memory) ⊎ (base_refusal (R.schema store.old) (R.tables store.old) table.now values.now ≡ Some why)) }
    ensures kept { OnErr result (R.tables store.new ≡ R.tables store.old) }
    ensures schema { R.schema store.new ≡ R.schema store.old }
{
    let Some(place) = table_place(store.schema().tables.as_slice(), table) else {
        return Err(Refusal::UnknownName);
    };
    let table = place as u32;
    let row = base_row(alloc, store, table, values)?;
    store.reserve(table, 1)?;
    store.put(table, row);
    Ok(())
}

/// How many rows of a table are filled in.
fn fill_count<R: RowStore>(store: &R, table: u32) -> u64
    requires { table < length (R.schema store.now).tables }
    ensures { result ≡ fill_count (columns_of (R.schema store.now) table) (rows_of (R.tables store.now) table) }
{
    if has_filled(columns_of(store.schema(), table)) {
        store.count(table)
    } else {
        0
    }
}

/// Makes room in each table for as many rows as are filled in there.
fn reserve_to_fill<R: RowStore>(store: &mut R) -> Result<(), NoMemory>
    requires shape { HasShape (R.schema store.old) }
    ensures ok { OnOk result ((t : ℕ) → t < length (R.schema store.old).tables →
        fill_count (columns_of (R.schema store.old) t) (rows_of (R.tables store.old) t) ≤ slice_index (R.spare store.new) t) }
    ensures schema { R.schema store.new ≡ R.schema store.old }
    ensures tables { R.tables store.new ≡ R.tables store.old }
{
    for table in 0..store.schema().tables.len() as u32 {
        store.reserve(table, fill_count(store, table))?;
    }
    Ok(())
}

/// Fills the row at a place in. It is taken out and put back, which uses room for one row up.
fn fill_row<R: RowStore>(store: &mut R, table: u32, place: u64, site: &SiteName)
    requires table { table < length (R.schema store.old).tables }
    requires shape { HasShape (R.schema store.old) }
    requires keyed { IsKeyed (columns_of (R.schema store.old) table) }
    requires free { FillsFreely (R.schema store.old) }
    requires place { place < length (rows_of (R.tables store.old) table) }
    requires room { 1 ≤ slice_index (R.spare store.old) table }
    ensures tables { (row : Cells) → slice_get (rows_of (R.tables store.old) table) place ≡ Some row → R.tables store.new ≡ slice_set (R.tables store.old) table
        (slice_set (rows_of (R.tables store.old) table) place (filled_row (record { stamp = 0; site = site.now }) (columns_of (R.schema store.old) table) row)) }
    ensures schema { R.schema store.new ≡ R.schema store.old }
    ensures room { slice_index (R.spare store.old) table ≤ slice_index (R.spare store.new) table + 1 }
    ensures others { (t : ℕ) → t ≢ table → slice_index (R.spare store.new) t ≡ slice_index (R.spare store.old) t }
{
    holds_tables(store);
    let Some(found) = store.row_in_order(table, place) else {
        unreachable!();
    };
    let key = key_in(store, table, found);
    let Some(mut row) = store.take(table, &key) else {
        unreachable!();
    };
    fill_everywhere(columns_of(store.schema(), table), site, &mut row);
    store.put(table, row);
}

/// Fills the rows of a table in. There is room for as many more.
fn fill_table<R: RowStore>(store: &mut R, table: u32, site: &SiteName)
    requires table { table < length (R.schema store.old).tables }
    requires shape { HasShape (R.schema store.old) }
    requires keyed { IsKeyed (columns_of (R.schema store.old) table) }
    requires free { FillsFreely (R.schema store.old) }
    requires room { fill_count (columns_of (R.schema store.old) table) (rows_of (R.tables store.old) table) ≤ slice_index (R.spare store.old) table }
    ensures tables { R.tables store.new ≡ slice_set (R.tables store.old) table
        (map (filled_row (record { stamp = 0; site = site.now }) (columns_of (R.schema store.old) table)) (rows_of (R.tables store.old) table)) }
    ensures schema { R.schema store.new ≡ R.schema store.old }
    ensures others { (t : ℕ) → t ≢ table → slice_index (R.spare store.new) t ≡ slice_index (R.spare store.old) t }
{
    holds_tables(store);
    for place in 0..fill_count(store, table) {
        fill_row(store, table, place, site);
    }
}

/// Fills the columns that a site fills of every row, with stamp 0 and a site's name. Where there is no memory, the
/// rows are as before.
pub fn fill_base_rows<R: RowStore>(store: &mut R, site: &SiteName) -> Result<(), NoMemory>
    requires shape { HasShape (R.schema store.old) }
    requires keys { HasKeys (R.schema store.old) }
    requires free { FillsFreely (R.schema store.old) }
    ensures ok { OnOk result (R.tables store.new ≡ filled_tables (record { stamp = 0; site = site.now }) (R.schema store.old).tables (R.tables store.old)) }
    ensures kept { OnErr result (R.tables store.new ≡ R.tables store.old) }
    ensures schema { R.schema store.new ≡ R.schema store.old }
{
    holds_tables(store);
    // The room comes first, so that what follows can't fail.
    reserve_to_fill(store)?;
    for table in 0..store.schema().tables.len() as u32 {
        fill_table(store, table, site);
    }
    Ok(())
}
