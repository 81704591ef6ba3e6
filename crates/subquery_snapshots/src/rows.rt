//! Rows in rising order of key, among which rows are put and taken.
ghost use Rattle.std.specs.Prelude.{◌≡◌, ◌+◌, ◌≤◌, [], ◌∷◌, vec_len, vec_capacity, IfSome, IfOk, IfErr, OnOk};
ghost use Rattle.rep_lists.specs.Rising.{IsRising, IsThere, IsGap};
ghost use Rattle.rep_schema.specs.Tables.{row_beside, row_cmp, key_of, put_row, take_row};
ghost use Rattle.subquery_snapshots.specs.Renewing.{Renews};

use rep_lists::{Copies, NoMemory, insert_in_room};
use rep_schema::{Column, compare_row, compare_rows};
use rep_values::{Row, Value};
use std::alloc::Global;
use std::cmp::Ordering;

/// The same rows once more.
pub(crate) fn copy_rows(alloc: Global, rows: &[Row]) -> Result<Vec<Row>, NoMemory>
    ensures { IfOk result (λ copied. copied.items ≡ rows.now) }
{
    let mut copied = Vec::with_capacity(alloc, rows.len())?;
    for row in rows {
        copied.push(row.copy(alloc)?)?;
    }
    Ok(copied)
}

/// The place of the row with a key, or else the place where it would stand.
fn search(rows: &[Row], columns: &[Column], key: &[Value]) -> Result<usize, usize>
    requires { IsRising (row_cmp columns.now) rows.now }
    ensures found { IfOk result (IsThere (row_beside columns.now key.now) rows.now) }
    ensures absent { IfErr result (IsGap (row_beside columns.now key.now) rows.now) }
{
    rows.binary_search_by(
        |row: &Row| -> Ordering
            ensures { result ≡ row_beside columns.entry.now key.entry.now row.now }
        { compare_row(columns, key, row.values()) },
    )
}

/// The place of the row with another row's key, or else the place where that one would stand.
fn search_like(rows: &[Row], columns: &[Column], like: &[Value]) -> Result<usize, usize>
    requires { IsRising (row_cmp columns.now) rows.now }
    ensures found { IfOk result (IsThere (row_beside columns.now (key_of columns.now like.now)) rows.now) }
    ensures absent { IfErr result (IsGap (row_beside columns.now (key_of columns.now like.now)) rows.now) }
{
    rows.binary_search_by(
        |row: &Row| -> Ordering
            ensures { result ≡ row_cmp columns.entry.now row.now like.entry.now }
        { compare_rows(columns, row.values(), like) },
    )
}

/// Puts a row in its place, or into that of the row with its key.
fn put_in(rows: &mut Vec<Row>, columns: &[Column], row: Row)
    requires rising { IsRising (row_cmp columns.now) rows.old.items }
    requires room { vec_len rows.old + 1 ≤ vec_capacity rows.old }
    ensures { rows.new.items ≡ put_row columns.now row rows.old.items }
{
    match search_like(rows, columns, row.values()) {
        Ok(place) => rows[place] = row,
        Err(place) => insert_in_room(rows, place, row),
    }
}

/// Takes the row with a key away, where there is one.
fn take_out(rows: &mut Vec<Row>, columns: &[Column], key: &[Value])
    requires { IsRising (row_cmp columns.now) rows.old.items }
    ensures { rows.new.items ≡ take_row columns.now key.now rows.old.items }
{
    match search(rows, columns, key) {
        Ok(place) => {
            let _ = rows.remove(place);
        }
        Err(_) => {}
    }
}

/// Gives rows this row under its key, or none there. There is room for one more.
fn set_in_room(rows: &mut Vec<Row>, columns: &[Column], key: &[Value], row: Option<Row>)
    requires rising { IsRising (row_cmp columns.now) rows.old.items }
    requires room { vec_len rows.old + 1 ≤ vec_capacity rows.old }
    requires own { IfSome row (λ row. key_of columns.now row ≡ key.now) }
    ensures { Renews columns.now (λ other. row) (key.now ∷ []) rows.old.items rows.new.items }
{
    match row {
        Some(row) => put_in(rows, columns, row),
        None => take_out(rows, columns, key),
    }
}

/// Gives rows this row under its key, or none there.
pub(crate) fn set_row(
    rows: &mut Vec<Row>,
    columns: &[Column],
    key: &[Value],
    row: Option<Row>,
) -> Result<(), NoMemory>
    requires rising { IsRising (row_cmp columns.now) rows.old.items }
    requires own { IfSome row (λ row. key_of columns.now row ≡ key.now) }
    ensures { OnOk result (Renews columns.now (λ other. row) (key.now ∷ []) rows.old.items rows.new.items) }
{
    rows.reserve(1)?;
    set_in_room(rows, columns, key, row);
    Ok(())
}
