//! The tables of the sites at the end, and where masters differ.
ghost use Rattle.std.specs.Prelude.{◌≡◌, ◌<◌, ◌+◌, ◌∷◌, map, drop, length, option_copied, IfOk};
ghost use Rattle.std.specs.List.{list_all};
ghost use Rattle.rep_schema.specs.Tables.{key_of, rows_of};
ghost use Rattle.table_cells.specs.Cells.{cell_in, is_value, shows, look_of_cell, cell_of, row_cells, is_unmarked};

use crate::values::value_words;
use page_tables::PageTables;
use page_text::{Cell, Look, Table, words_of};
use rep_lists::{Items, NoMemory};
use rep_schema::{Column, RowStore, TableEntry};
use rep_values::{Key, Row, Value};
use std::alloc::Global;

/// The values of a row's key.
fn key_values(alloc: Global, columns: &[Column], row: &[Value]) -> Result<Vec<Value>, NoMemory>
    ensures { IfOk result (λ values. values.items ≡ key_of columns.now row.now) }
{
    let mut values = Vec::new(alloc);
    for place in 0..columns.len().min(row.len()) {
        if columns[place].key {
            values.push(row[place])?;
        }
    }
    Ok(values)
}

/// Whether a row has a value in a column.
fn has_value(row: Option<&Row>, column: usize, value: &Value) -> bool
    ensures { result ≡ is_value (cell_in (option_copied row.entry) column) value.now }
{
    let Some(row) = row else {
        return false;
    };
    match row.values().get(column) {
        Some(other) => other == value,
        None => false,
    }
}

/// Whether a store has a value in a column of the row with a key.
#[tactic(auto, using(crate::proofs::Marking::table_beyond, crate::proofs::Marking::table_within))]
fn shows(store: &PageTables, table: u32, key: &Key, column: usize, value: &Value) -> bool
    ensures { result ≡ shows table key.now column value.now store.now }
{
    if (table as usize) >= store.schema().tables.len() {
        return false;
    }
    has_value(store.get(table, key), column, value)
}

/// Whether each master has a value in a column under a key.
fn all_show(masters: &[&PageTables], table: u32, key: &Key, column: usize, value: &Value) -> bool
    ensures { result ≡ list_all (shows table key.now column value.now) (map (λ master. master.now) masters.now) }
{
    for master in masters {
        if !shows(*master, table, key, column, value) {
            return false;
        }
    }
    true
}

/// How a cell looks: marked exactly where a master shows another value under the row's key, or no row. A row without a key, which
/// no table has, is marked.
#[tactic(auto, using(crate::proofs::Marking::look_same, crate::proofs::Marking::look_differs, crate::proofs::Marking::look_keyless))]
fn look_of(masters: &[&PageTables], table: u32, key: &[Value], column: usize, value: &Value) -> Look
    ensures { result ≡ look_of_cell (map (λ master. master.now) masters.now) table key.now column value.now }
{
    let Some(key) = Key::of(key) else {
        return Look::Differs;
    };
    if all_show(masters, table, &key, column, value) {
        Look::Same
    } else {
        Look::Differs
    }
}

/// The cell of a value.
fn cell_of(
    alloc: Global,
    masters: &[&PageTables],
    table: u32,
    key: &[Value],
    column: usize,
    value: &Value,
) -> Result<Cell, NoMemory>
    ensures { IfOk result (λ cell. cell ≡ cell_of (map (λ master. master.now) masters.now) table key.now column value.now) }
{
    Ok(Cell {
        look: look_of(masters, table, key, column, value),
        words: value_words(alloc, value)?,
    })
}

/// The cells of a row.
fn cells_of(
    alloc: Global,
    masters: &[&PageTables],
    table: u32,
    columns: &[Column],
    row: &[Value],
) -> Result<Items<Cell>, NoMemory>
    ensures { IfOk result (λ cells. cells ≡ row_cells (map (λ master. master.now) masters.now) table columns.now row.now) }
{
    let values = key_values(alloc, columns, row)?;
    let key = values.as_slice();
    let mut cells = Vec::new(alloc);
    for column in 0..row.len() {
        cells.push(cell_of(alloc, masters, table, key, column, &row[column])?)?;
    }
    Ok(Items::from_vec(cells))
}

/// The names of columns.
fn names_of(alloc: Global, columns: &[Column]) -> Result<Items<Items<u8>>, NoMemory>
    ensures { IfOk result (λ names. names ≡ map (λ column. column.name) columns.now) }
{
    let mut names = Vec::new(alloc);
    for column in columns {
        names.push(words_of(alloc, column.name.bytes())?)?;
    }
    Ok(Items::from_vec(names))
}

/// The row at a place that has one.
fn row_at(store: &PageTables, table: u32, place: u64) -> &Row
    requires table { table < length store.now.schema.tables }
    requires place { place < length (rows_of store.now.tables table) }
    ensures { drop place (rows_of store.now.tables table) ≡ result.now ∷ drop (place + 1) (rows_of store.now.tables table) }
{
    match store.row_in_order(table, place) {
        Some(row) => row,
        None => unreachable!(),
    }
}

/// The rows of a table at a site as cells, by their keys.
fn rows_of(
    alloc: Global,
    masters: &[&PageTables],
    store: &PageTables,
    table: u32,
    columns: &[Column],
) -> Result<Items<Items<Cell>>, NoMemory>
    requires { table < length store.now.schema.tables }
    ensures { IfOk result (λ rows. rows ≡ map (row_cells (map (λ master. master.now) masters.now) table columns.now) (rows_of store.now.tables table)) }
{
    let count = store.count(table);
    let mut rows = Vec::new(alloc);
    for place in 0..count {
        let row = row_at(store, table, place);
        rows.push(cells_of(alloc, masters, table, columns, row.values())?)?;
    }
    Ok(Items::from_vec(rows))
}

/// A table of a site under the site's name: each row by its key, each cell the row's value.
pub fn table_at(
    alloc: Global,
    caption: &[u8],
    masters: &[&PageTables],
    store: &PageTables,
    table: u32,
    entry: &TableEntry,
) -> Result<Table, NoMemory>
    requires { table < length store.now.schema.tables }
    ensures caption { IfOk result (λ shown. shown.caption ≡ caption.now) }
    ensures columns { IfOk result (λ shown. shown.columns ≡ map (λ column. column.name) entry.now.columns) }
    ensures rows { IfOk result (λ shown. shown.rows ≡ map (row_cells (map (λ master. master.now) masters.now) table entry.now.columns) (rows_of store.now.tables table)) }
{
    let columns = entry.columns.as_slice();
    Ok(Table {
        caption: words_of(alloc, caption)?,
        columns: names_of(alloc, columns)?,
        rows: rows_of(alloc, masters, store, table, columns)?,
    })
}

/// Whether a look is that of a cell which isn't marked.
fn is_unmarked(look: Look) -> bool
    ensures { result ≡ is_unmarked look }
{
    matches!(look, Look::Same)
}

/// Whether no cell of a row is marked.
fn is_row_same(cells: &[Cell]) -> bool
    ensures { result ≡ list_all (λ cell. is_unmarked cell.look) cells.now }
{
    for cell in cells {
        if !is_unmarked(cell.look) {
            return false;
        }
    }
    true
}

/// Whether no cell of rows is marked.
fn are_rows_same(rows: &[Items<Cell>]) -> bool
    ensures { result ≡ list_all (list_all (λ cell. is_unmarked cell.look)) rows.now }
{
    for row in rows {
        if !is_row_same(row.as_slice()) {
            return false;
        }
    }
    true
}

/// Whether no cell of a table is marked.
pub fn is_same(table: &Table) -> bool
    ensures { result ≡ list_all (list_all (λ cell. is_unmarked cell.look)) table.now.rows }
{
    are_rows_same(table.rows.as_slice())
}
