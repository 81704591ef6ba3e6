//! Rows beside keys and beside one another, by the columns of a table.
ghost use Rattle.std.specs.Prelude.{◌≡◌, ◌+◌, ◌<◌, ◌↔◌, ◌∷◌, length, drop, slice_get, slice_index_or, IsTrue};
ghost use Rattle.rep_values.specs.declared.value.Value.{Value as One};
ghost use Rattle.rep_values.specs.Number.{IsKeyLen};
ghost use Rattle.rep_schema.specs.Tables.{row_beside, cell_cmp, row_cmp, key_of, columns_of, constraints_of, constraint_columns_of, picked, IsKeyed, RowFits};

use crate::{Column, Constraint, Schema};
use rep_values::{Key, Row, Value, compare_values, same_value};
use std::cmp::Ordering;

/// Where a row stands beside a key: before it, at it or behind it. It takes no memory and builds no key.
pub fn compare_row(columns: &[Column], key: &[Value], row: &[Value]) -> Ordering
    ensures { result ≡ row_beside columns.now key.now row.now }
{
    let mut read = 0;
    for i in 0..columns.len().min(row.len()) {
        if columns[i].key {
            if read == key.len() {
                return Ordering::Greater;
            }
            match compare_values(&row[i], &key[read]) {
                Ordering::Equal => read += 1,
                Ordering::Less => return Ordering::Less,
                Ordering::Greater => return Ordering::Greater,
            }
        }
    }
    if read == key.len() {
        Ordering::Equal
    } else {
        Ordering::Less
    }
}

/// Two rows compared at a place. A row stands before those that go on where it ends.
fn compare_at(a: &[Value], b: &[Value], place: usize) -> Ordering
    ensures { result ≡ cell_cmp (slice_get a.now place) (slice_get b.now place) }
{
    match (a.get(place), b.get(place)) {
        (Some(x), Some(y)) => compare_values(x, y),
        (None, None) => Ordering::Equal,
        (None, Some(_)) => Ordering::Less,
        (Some(_), None) => Ordering::Greater,
    }
}

/// Where one row stands beside another in the order of keys. It takes no memory and builds no key.
pub fn compare_rows(columns: &[Column], a: &[Value], b: &[Value]) -> Ordering
    ensures { result ≡ row_cmp columns.now a.now b.now }
{
    for i in 0..columns.len() {
        if columns[i].key {
            match compare_at(a, b, i) {
                Ordering::Equal => {}
                Ordering::Less => return Ordering::Less,
                Ordering::Greater => return Ordering::Greater,
            }
        }
    }
    Ordering::Equal
}

/// The place of the first value of a row's key, which has one.
fn first_of_key(columns: &[Column], row: &[Value]) -> usize
    requires { IsKeyLen (length (key_of columns.now row.now)) }
    ensures columns { result < length columns.now }
    ensures row { result < length row.now }
    ensures key { (value : One) → value ≡ slice_index_or row.now result value
        → key_of columns.now row.now ≡ value ∷ key_of (drop (result + 1) columns.now) (drop (result + 1) row.now) }
{
    for i in 0..columns.len().min(row.len()) {
        if columns[i].key {
            return i;
        }
    }
    unreachable!()
}

/// The key of a row: its values in the key columns, of which there are 1 to 4.
pub fn key_of(columns: &[Column], row: &[Value]) -> Key
    requires { IsKeyLen (length (key_of columns.now row.now)) }
    ensures { result ≡ key_of columns.now row.now }
{
    let first = first_of_key(columns, row);
    let mut key = Key::first(row[first]);
    for i in first + 1..columns.len().min(row.len()) {
        if columns[i].key {
            key.push(row[i]);
        }
    }
    key
}

/// Whether two rows have one key.
pub fn have_one_key(columns: &[Column], a: &[Value], b: &[Value]) -> bool
    ensures { IsTrue result ↔ (key_of columns.now a.now ≡ key_of columns.now b.now) }
{
    compare_rows(columns, a, b).is_eq()
}

/// The columns of a table of the schema.
pub fn columns_of(schema: &Schema, table: u32) -> &[Column]
    requires { table < length schema.now.tables }
    ensures { result.now ≡ columns_of schema.now table }
{
    schema.tables.at(table as usize).columns.as_slice()
}

/// The key of a row that fits a table of the schema.
pub fn key_in(schema: &Schema, table: u32, row: &Row) -> Key
    requires table { table < length schema.now.tables }
    requires keyed { IsKeyed (columns_of schema.now table) }
    requires fits { RowFits (columns_of schema.now table) row.now }
    ensures { result ≡ key_of (columns_of schema.now table) row.now }
{
    key_of(columns_of(schema, table), row.values())
}

/// The secondary constraints of a table of the schema.
pub fn constraints_of(schema: &Schema, table: u32) -> &[Constraint]
    requires { table < length schema.now.tables }
    ensures { result.now ≡ constraints_of schema.now table }
{
    schema.tables.at(table as usize).constraints.as_slice()
}

/// How many secondary constraints a table of the schema has.
pub fn constraint_count(schema: &Schema, table: u32) -> usize
    requires { table < length schema.now.tables }
    ensures { result ≡ length (constraints_of schema.now table) }
{
    let entry = schema.tables.at(table as usize);
    entry.constraints.len()
}

/// The places of the columns of a secondary constraint, in rising order.
pub fn constraint_columns(schema: &Schema, table: u32, constraint: u32) -> &[u32]
    requires table { table < length schema.now.tables }
    requires constraint { constraint < length (constraints_of schema.now table) }
    ensures { result.now ≡ constraint_columns_of schema.now table constraint }
{
    let entry = schema.tables.at(table as usize);
    entry.constraints.at(constraint as usize).columns.as_slice()
}

/// Whether two rows have the same value at a place, or both none.
fn same_cell(a: &[Value], b: &[Value], place: u32) -> bool
    ensures { IsTrue result ↔ (slice_get a.now place ≡ slice_get b.now place) }
{
    match (a.get(place as usize), b.get(place as usize)) {
        (Some(x), Some(y)) => same_value(x, y),
        (None, None) => true,
        (Some(_), None) | (None, Some(_)) => false,
    }
}

/// Whether two rows have the same values at these places.
pub fn same_picked(places: &[u32], a: &[Value], b: &[Value]) -> bool
    ensures { IsTrue result ↔ (picked places.now a.now ≡ picked places.now b.now) }
{
    for place in places {
        if !same_cell(a, b, *place) {
            return false;
        }
    }
    true
}
