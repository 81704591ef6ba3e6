//! What an action of a procedure does to the rows of a store's table. Each change is kept on a trail, also where there is no memory
//! for all of them.
ghost use Rattle.std.specs.Prelude.{◌≡◌, ◌<◌, [], map, true, is_some, length, slice_get, slice_set, Some, Ok, IfOk, IfErr, IfSome, OnOk};
ghost use Rattle.std.specs.List.{list_all};
ghost use Rattle.rep_schema.specs.Tables.{Cells, columns_of, constraints_of, put_row, rows_of, RowFits, IsKeyed};
ghost use Rattle.proc_state.specs.Calls.{TakesAmounts};
ghost use Rattle.proc_state.specs.Actions.{column_number, sum_at, can_rise, can_rise_where, row_raised, row_raised_where, after_add, after_drop};
ghost use Rattle.proc_calls.specs.Trails.{KeepsTrail};
ghost use Rattle.proc_calls.specs.Raising.{left_at, with_rows};
ghost use Rattle.proc_calls.specs.Stops.{CallStopsAs};

use crate::stop::CallStop;
use crate::trail::Trail;
use rep_lists::{Copies, NoMemory};
use rep_schema::{Change, RowStore, holds_tables, key_in, put_with_change, value_in_range};
use rep_values::{ApplyError, Row, Value};
use snapshot_query::Query;
use std::alloc::Global;

/// Puts a row, in place of the one with its key.
pub(crate) fn put<R: RowStore>(
    alloc: Global,
    store: &mut R,
    table: u32,
    row: Row,
    trail: &mut Trail,
) -> Result<(), NoMemory>
    requires table { table < length (R.schema store.old).tables }
    requires keyed { IsKeyed (columns_of (R.schema store.old) table) }
    requires unconstrained { constraints_of (R.schema store.old) table ≡ [] }
    requires fits { RowFits (columns_of (R.schema store.old) table) row }
    ensures tables { OnOk result (R.tables store.new ≡ slice_set (R.tables store.old) table (put_row (columns_of (R.schema store.old) table) row (rows_of (R.tables store.old) table))) }
    ensures trail { KeepsTrail (record { schema = R.schema store.old; tables = R.tables store.old; spare = R.spare store.old })
        (record { schema = R.schema store.new; tables = R.tables store.new; spare = R.spare store.new }) trail.old.items trail.new.items }
{
    trail.reserve(store, table)?;
    let change = put_with_change(alloc, store, table, row)?;
    trail.push(change);
    Ok(())
}

/// The number at a place of values, 0 where there is none.
pub(crate) fn number_at(values: &[Value], place: u32) -> i64
    ensures { result ≡ column_number place values.now }
{
    match values.get(place as usize) {
        Some(Value::Num(number)) => *number,
        Some(Value::Words(_)) | None => 0,
    }
}

/// The number in a column of a row and an amount together; None where the sum leaves ±10^15.
fn sum_at(row: &Row, column: u32, amount: i64) -> Option<i64>
    ensures range { is_some result ≡ can_rise column amount row.now }
    ensures sum { IfSome result (λ sum. sum ≡ sum_at column amount row.now) }
{
    let sum = number_at(row.values(), column).checked_add(amount)?;
    if value_in_range(&Value::Num(sum)) {
        Some(sum)
    } else {
        None
    }
}

/// Whether a row may have the amount added, or doesn't pass the tests.
fn takes_amount(row: &Row, column: u32, tests: &Query, amount: i64) -> bool
    ensures { result ≡ can_rise_where tests.now column amount row.now }
{
    !tests.matches(row) || sum_at(row, column, amount).is_some()
}

/// Whether each row that passes the tests may have the amount added.
fn all_take_amount<R: RowStore>(
    store: &R,
    table: u32,
    column: u32,
    tests: &Query,
    amount: i64,
) -> bool
    requires { table < length (R.schema store.now).tables }
    ensures { result ≡ list_all (can_rise_where tests.now column amount) (rows_of (R.tables store.now) table) }
{
    for place in 0..store.count(table) {
        let Some(row) = store.row_in_order(table, place) else {
            unreachable!()
        };
        if !takes_amount(row, column, tests, amount) {
            return false;
        }
    }
    true
}

/// A copy of a row with an amount added in a column, where the sum is in range.
fn raised_row(alloc: Global, row: &Row, column: u32, amount: i64) -> Result<Row, NoMemory>
    requires range { can_rise column amount row.now ≡ true }
    requires within { column < length row.now }
    ensures { IfOk result (λ copied. copied ≡ row_raised column amount row.now) }
{
    let Some(sum) = sum_at(row, column, amount) else {
        unreachable!()
    };
    let mut copied = row.copy(alloc)?;
    copied.set(column as usize, Value::Num(sum));
    Ok(copied)
}

/// Adds the amount in the row at a place, where it passes the tests. Its key stays, and so does its place.
fn raise_at<R: RowStore>(
    alloc: Global,
    store: &mut R,
    table: u32,
    column: u32,
    tests: &Query,
    amount: i64,
    place: u64,
    trail: &mut Trail,
) -> Result<(), NoMemory>
    requires table { table < length (R.schema store.old).tables }
    requires keyed { IsKeyed (columns_of (R.schema store.old) table) }
    requires unconstrained { constraints_of (R.schema store.old) table ≡ [] }
    requires takes { TakesAmounts (slice_get (columns_of (R.schema store.old) table) column) }
    requires place { place < length (rows_of (R.tables store.old) table) }
    requires range { (row : Cells) → slice_get (rows_of (R.tables store.old) table) place ≡ Some row → can_rise_where tests.now column amount row ≡ true }
    ensures tables { OnOk result ((row : Cells) → slice_get (rows_of (R.tables store.old) table) place ≡ Some row
        → R.tables store.new ≡ slice_set (R.tables store.old) table
        (slice_set (rows_of (R.tables store.old) table) place (row_raised_where tests.now column amount row))) }
    ensures trail { KeepsTrail (record { schema = R.schema store.old; tables = R.tables store.old; spare = R.spare store.old })
        (record { schema = R.schema store.new; tables = R.tables store.new; spare = R.spare store.new }) trail.old.items trail.new.items }
{
    holds_tables(store);
    let Some(row) = store.row_in_order(table, place) else {
        unreachable!()
    };
    if !tests.matches(row) {
        return Ok(());
    }
    let risen = raised_row(alloc, row, column, amount)?;
    put(alloc, store, table, risen, trail)?;
    Ok(())
}

/// Adds the amount in each row that passes the tests.
fn raise_each<R: RowStore>(
    alloc: Global,
    store: &mut R,
    table: u32,
    column: u32,
    tests: &Query,
    amount: i64,
    trail: &mut Trail,
) -> Result<(), NoMemory>
    requires table { table < length (R.schema store.old).tables }
    requires keyed { IsKeyed (columns_of (R.schema store.old) table) }
    requires unconstrained { constraints_of (R.schema store.old) table ≡ [] }
    requires takes { TakesAmounts (slice_get (columns_of (R.schema store.old) table) column) }
    requires range { list_all (can_rise_where tests.now column amount) (rows_of (R.tables store.old) table) ≡ true }
    ensures tables { OnOk result (R.tables store.new ≡ slice_set (R.tables store.old) table
        (map (row_raised_where tests.now column amount) (rows_of (R.tables store.old) table))) }
    ensures trail { KeepsTrail (record { schema = R.schema store.old; tables = R.tables store.old; spare = R.spare store.old })
        (record { schema = R.schema store.new; tables = R.tables store.new; spare = R.spare store.new }) trail.old.items trail.new.items }
{
    holds_tables(store);
    for place in 0..store.count(table) {
        raise_at(alloc, store, table, column, tests, amount, place, trail)?;
    }
    Ok(())
}

/// Adds an amount in each row that passes the tests. All of these are tested first, so where one of the sums leaves ±10^15 no row is
/// changed.
pub(crate) fn add<R: RowStore>(
    alloc: Global,
    store: &mut R,
    table: u32,
    column: u32,
    tests: &Query,
    amount: i64,
    trail: &mut Trail,
) -> Result<(), CallStop>
    requires table { table < length (R.schema store.old).tables }
    requires keyed { IsKeyed (columns_of (R.schema store.old) table) }
    requires unconstrained { constraints_of (R.schema store.old) table ≡ [] }
    requires takes { TakesAmounts (slice_get (columns_of (R.schema store.old) table) column) }
    ensures ok { OnOk result (with_rows table (R.tables store.old) (after_add column tests.now amount (rows_of (R.tables store.old) table)) ≡ Ok (R.tables store.new)) }
    ensures err { IfErr result (CallStopsAs (with_rows table (R.tables store.old) (after_add column tests.now amount (rows_of (R.tables store.old) table)))) }
    ensures trail { KeepsTrail (record { schema = R.schema store.old; tables = R.tables store.old; spare = R.spare store.old })
        (record { schema = R.schema store.new; tables = R.tables store.new; spare = R.spare store.new }) trail.old.items trail.new.items }
{
    if !all_take_amount(store, table, column, tests, amount) {
        return Err(CallStop::Failed(ApplyError::ValueRange));
    }
    raise_each(alloc, store, table, column, tests, amount, trail)?;
    Ok(())
}

/// Takes the row at a place away, where it passes the tests.
fn take_at<R: RowStore>(
    store: &mut R,
    table: u32,
    tests: &Query,
    place: u64,
    trail: &mut Trail,
) -> Result<(), NoMemory>
    requires table { table < length (R.schema store.old).tables }
    requires keyed { IsKeyed (columns_of (R.schema store.old) table) }
    requires place { place < length (rows_of (R.tables store.old) table) }
    ensures tables { OnOk result ((row : Cells) → slice_get (rows_of (R.tables store.old) table) place ≡ Some row
        → R.tables store.new ≡ slice_set (R.tables store.old) table (left_at tests.now place row (rows_of (R.tables store.old) table))) }
    ensures trail { KeepsTrail (record { schema = R.schema store.old; tables = R.tables store.old; spare = R.spare store.old })
        (record { schema = R.schema store.new; tables = R.tables store.new; spare = R.spare store.new }) trail.old.items trail.new.items }
{
    holds_tables(store);
    let Some(row) = store.row_in_order(table, place) else {
        unreachable!()
    };
    if !tests.matches(row) {
        return Ok(());
    }
    let key = key_in(store.schema(), table, row);
    trail.reserve(store, table)?;
    let before = store.take(table, &key);
    trail.push(Change {
        table,
        before,
        after: None,
    });
    Ok(())
}

/// Takes each row away that passes the tests, the last one first, so that those in front of it keep their places.
pub(crate) fn take_each<R: RowStore>(
    store: &mut R,
    table: u32,
    tests: &Query,
    trail: &mut Trail,
) -> Result<(), NoMemory>
    requires table { table < length (R.schema store.old).tables }
    requires keyed { IsKeyed (columns_of (R.schema store.old) table) }
    ensures tables { OnOk result (R.tables store.new ≡ slice_set (R.tables store.old) table (after_drop tests.now (rows_of (R.tables store.old) table))) }
    ensures trail { KeepsTrail (record { schema = R.schema store.old; tables = R.tables store.old; spare = R.spare store.old })
        (record { schema = R.schema store.new; tables = R.tables store.new; spare = R.spare store.new }) trail.old.items trail.new.items }
{
    holds_tables(store);
    for place in (0..store.count(table)).rev() {
        take_at(store, table, tests, place, trail)?;
    }
    Ok(())
}
