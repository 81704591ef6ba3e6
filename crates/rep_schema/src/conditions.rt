//! The tests of what calls on rows ask: that a number is in range, that a row fits its columns, that a table has a
//! key, and that a row is unique.
ghost use Rattle.std.specs.Prelude.{◌≡◌, ◌<◌, ◌≤◌, ◌↔◌, length, IsTrue};
ghost use Rattle.rep_schema.specs.Limits.{most_constraints};
ghost use Rattle.rep_schema.specs.Tables.{columns_of, constraints_of, rows_of, IsInRange, FitsKind, RowFits, IsKeyed, IsUniqueRow, key_count};
ghost use Rattle.rep_schema.specs.Fitting.{row_fits, is_keyed};

use crate::{Column, Kind, RowStore, constraint_count};
use rep_values::{Row, Value};

/// Whether a number lies within ±10^15.
pub fn is_in_range(number: i64) -> bool
    ensures { IsTrue result ↔ IsInRange number }
{
    -1_000_000_000_000_000 <= number && number <= 1_000_000_000_000_000
}

/// Whether a column of this kind may hold the value.
pub fn fits_kind(kind: Kind, value: &Value) -> bool
    ensures { IsTrue result ↔ FitsKind kind value.now }
{
    match (kind, value) {
        (Kind::Number | Kind::Date | Kind::Stamp, Value::Num(number)) => is_in_range(*number),
        (Kind::Words | Kind::Site, Value::Words(_)) => true,
        (Kind::Number | Kind::Date | Kind::Stamp, Value::Words(_)) => false,
        (Kind::Words | Kind::Site, Value::Num(_)) => false,
    }
}

fn fits_each(columns: &[Column], row: &[Value]) -> bool
    ensures { IsTrue result ↔ RowFits columns.now row.now }
{
    if columns.len() != row.len() {
        return false;
    }
    for i in 0..columns.len() {
        if !fits_kind(columns[i].kind, &row[i]) {
            return false;
        }
    }
    true
}

/// Whether a row has a value for each column, of its kind.
pub fn row_fits(columns: &[Column], row: &[Value]) -> bool
    ensures value { result ≡ row_fits columns.now row.now }
    ensures meaning { IsTrue result ↔ RowFits columns.now row.now }
{
    fits_each(columns, row)
}

/// How many key columns there are.
pub fn key_count(columns: &[Column]) -> usize
    ensures { result ≡ key_count columns.now }
{
    let mut count = 0usize;
    for column in columns {
        if column.key {
            count += 1;
        }
    }
    count
}

/// Whether there are 1 to 4 key columns.
pub fn is_keyed(columns: &[Column]) -> bool
    ensures value { result ≡ is_keyed columns.now }
    ensures meaning { IsTrue result ↔ IsKeyed columns.now }
{
    let count = key_count(columns);
    1 <= count && count <= 4
}

/// Whether no row with another key has the row's values in the columns of a secondary constraint. The table has 1 to
/// 4 key columns and at most 8 secondary constraints, and the row fits it.
pub fn is_unique<R: RowStore>(store: &R, table: u32, row: &Row) -> bool
    requires table { table < length (R.schema store.now).tables }
    requires keyed { IsKeyed (columns_of (R.schema store.now) table) }
    requires fits { RowFits (columns_of (R.schema store.now) table) row.now }
    requires few { length (constraints_of (R.schema store.now) table) ≤ most_constraints }
    ensures { IsTrue result ↔ IsUniqueRow (R.schema store.now) table row.now (rows_of (R.tables store.now) table) }
{
    for c in 0..constraint_count(store.schema(), table) {
        if store.holds_unique(table, c as u32, row) {
            return false;
        }
    }
    true
}
