//! The rows of one table, in rising order of key.
ghost use Rattle.std.specs.Prelude.{◌≡◌, ◌≢◌, ◌+◌, ◌≤◌, ◌⊎◌, ◌↔◌, [], length, slice_get, option_copied, IsTrue, IsSome, IsOk, IfOk, IfErr, OnOk, OnSome};
ghost use Rattle.rep_lists.specs.Rising.{IsRising, IsThere, IsGap};
ghost use Rattle.rep_schema.specs.Tables.{row_beside, row_cmp, key_of, find_row, put_row, take_row, picked, IsHeldElsewhere};

use rep_lists::{NoMemory, RoomyList};
use rep_schema::{Column, compare_row, compare_rows, have_one_key, same_picked};
use rep_values::{Row, Value};
use std::alloc::Global;
use std::cmp::Ordering;
use std::marker::Model;

/// The place of the row with a key, or else the place where it would stand.
fn search(rows: &[Row], columns: &[Column], key: &[Value]) -> Result<usize, usize>
    requires { IsRising (row_cmp columns.now) rows.now }
    ensures found { IfOk result (IsThere (row_beside columns.now key.now) rows.now) }
    ensures absent { IfErr result (IsGap (row_beside columns.now key.now) rows.now) }
{
    rows.binary_search_by(
        |row: &Row| -> Ordering
            ensures { result ≡ row_beside columns.entry.now key.entry.now row.now }
        { compare_row(columns, key, row.values()) },
    )
}

/// The place of the row with another row's key, or else the place where that one would stand. No key is built.
fn search_like(rows: &[Row], columns: &[Column], like: &[Value]) -> Result<usize, usize>
    requires { IsRising (row_cmp columns.now) rows.now }
    ensures found { IfOk result (IsThere (row_beside columns.now (key_of columns.now like.now)) rows.now) }
    ensures absent { IfErr result (IsGap (row_beside columns.now (key_of columns.now like.now)) rows.now) }
{
    rows.binary_search_by(
        |row: &Row| -> Ordering
            ensures { result ≡ row_cmp columns.entry.now row.now like.entry.now }
        { compare_rows(columns, row.values(), like) },
    )
}

fn find<'a>(rows: &'a [Row], columns: &[Column], key: &[Value]) -> Option<&'a Row>
    requires { IsRising (row_cmp columns.now) rows.now }
    ensures { option_copied result ≡ find_row columns.now key.now rows.now }
{
    match search(rows, columns, key) {
        Ok(place) => Some(&rows[place]),
        Err(_) => None,
    }
}

fn take_out(rows: &mut RoomyList<Row>, columns: &[Column], key: &[Value]) -> Option<Row>
    requires { IsRising (row_cmp columns.now) rows.old.items }
    ensures taken { result ≡ find_row columns.now key.now rows.old.items }
    ensures rows { rows.new.items ≡ take_row columns.now key.now rows.old.items }
    ensures room { rows.old.spare ≤ rows.new.spare }
{
    match search(rows.as_slice(), columns, key) {
        Ok(place) => Some(rows.remove(place)),
        Err(_) => None,
    }
}

/// Puts a row in its place, and hands back the row with its key.
fn put_in(rows: &mut RoomyList<Row>, columns: &[Column], row: Row) -> Option<Row>
    requires rising { IsRising (row_cmp columns.now) rows.old.items }
    requires room { IsSome (find_row columns.now (key_of columns.now row) rows.old.items) ⊎ (1 ≤ rows.old.spare) }
    ensures replaced { result ≡ find_row columns.now (key_of columns.now row) rows.old.items }
    ensures rows { rows.new.items ≡ put_row columns.now row rows.old.items }
    ensures room_added { rows.old.spare ≤ rows.new.spare + 1 }
    ensures room_replaced { OnSome result (rows.old.spare ≤ rows.new.spare) }
{
    match search_like(rows.as_slice(), columns, row.values()) {
        Ok(place) => Some(rows.replace(place, row)),
        Err(place) => {
            rows.insert(place, row);
            None
        }
    }
}

/// Whether the other row has another key and the row's values at these places.
fn clashes(columns: &[Column], places: &[u32], row: &[Value], other: &[Value]) -> bool
    ensures { IsTrue result
        ↔ ((key_of columns.now other.now ≢ key_of columns.now row.now) × (picked places.now other.now ≡ picked places.now row.now)) }
{
    same_picked(places, other, row) && !have_one_key(columns, other, row)
}

/// Whether a row with another key has the row's values at these places.
fn is_held_elsewhere(rows: &[Row], columns: &[Column], places: &[u32], row: &[Value]) -> bool
    ensures { IsTrue result ↔ IsHeldElsewhere columns.now places.now row.now rows.now }
{
    for other in rows {
        if clashes(columns, places, row, other.values()) {
            return true;
        }
    }
    false
}

/// A table's rows, in rising order of key. The columns of the table are given to each call.
#[derive(Drop)]
pub(crate) struct SortedRows {
    rows: RoomyList<Row>,
}

impl Model for SortedRows {
    ghost use Rattle.row_tables.specs.Stored.{StoredTable};

    ghost Value = { StoredTable };

    ghost view = { λ s. record { rows = s.rows.items; spare = s.rows.spare } };
}

impl SortedRows {
    /// No rows, which take no memory.
    pub(crate) fn new(alloc: Global) -> SortedRows
        ensures { result.rows ≡ [] }
    {
        SortedRows {
            rows: RoomyList::new(alloc),
        }
    }

    /// How many rows there are.
    pub(crate) fn len(&self) -> usize
        ensures { result ≡ length self.now.rows }
    {
        self.rows.len()
    }

    /// The row at a place in the order of keys, from 0.
    pub(crate) fn at(&self, place: usize) -> Option<&Row>
        ensures { option_copied result ≡ slice_get self.now.rows place }
    {
        self.rows.as_slice().get(place)
    }

    /// The row with a key.
    pub(crate) fn get(&self, columns: &[Column], key: &[Value]) -> Option<&Row>
        requires { IsRising (row_cmp columns.now) self.now.rows }
        ensures { option_copied result ≡ find_row columns.now key.now self.now.rows }
    {
        find(self.rows.as_slice(), columns, key)
    }

    /// Whether a row with another key has the row's values at these places.
    pub(crate) fn holds(&self, columns: &[Column], places: &[u32], row: &[Value]) -> bool
        ensures { IsTrue result ↔ IsHeldElsewhere columns.now places.now row.now self.now.rows }
    {
        is_held_elsewhere(self.rows.as_slice(), columns, places, row)
    }

    /// Makes room for so many new rows, or finds no memory. Room that is there is never given up.
    pub(crate) fn reserve(&mut self, rows: usize) -> Result<(), NoMemory>
        ensures ok { OnOk result (rows ≤ self.new.spare) }
        ensures succeeds { rows ≤ self.old.spare → IsOk result }
        ensures kept { self.old.spare ≤ self.new.spare }
        ensures rows { self.new.rows ≡ self.old.rows }
    {
        self.rows.reserve(rows)
    }

    /// Adds a row, or puts it in the place of the row with its key, which it hands back. A new key uses up room for
    /// one row.
    pub(crate) fn put(&mut self, columns: &[Column], row: Row) -> Option<Row>
        requires rising { IsRising (row_cmp columns.now) self.old.rows }
        requires room { IsSome (find_row columns.now (key_of columns.now row) self.old.rows) ⊎ (1 ≤ self.old.spare) }
        ensures replaced { result ≡ find_row columns.now (key_of columns.now row) self.old.rows }
        ensures rows { self.new.rows ≡ put_row columns.now row self.old.rows }
        ensures room_added { self.old.spare ≤ self.new.spare + 1 }
        ensures room_replaced { OnSome result (self.old.spare ≤ self.new.spare) }
    {
        put_in(&mut self.rows, columns, row)
    }

    /// Takes the row with a key away and hands it back. Its room stays.
    pub(crate) fn take(&mut self, columns: &[Column], key: &[Value]) -> Option<Row>
        requires { IsRising (row_cmp columns.now) self.old.rows }
        ensures taken { result ≡ find_row columns.now key.now self.old.rows }
        ensures rows { self.new.rows ≡ take_row columns.now key.now self.old.rows }
        ensures room { self.old.spare ≤ self.new.spare }
    {
        take_out(&mut self.rows, columns, key)
    }
}
