//! Rows in a store, and why a row can't be put there.
ghost use Rattle.std.specs.Prelude.{◌≡◌, ◌<◌, map, length, slice_get, is_some, option_copied, Some};
ghost use Rattle.rep_schema.specs.declared.schema.Constraint.{Constraint as ConstraintValue};
ghost use Rattle.rep_schema.specs.Tables.{columns_of, constraints_of, key_of, RowFits};
ghost use Rattle.rep_values.specs.RefusalSteps.{first_refusal};
ghost use Rattle.unique_resolve.specs.Trying.{IsTestable, HasBefore};
ghost use Rattle.txn_effects.specs.Statements.{taken_step, unique_steps, check_step, row_steps, row_at};
ghost use Rattle.txn_effects.specs.NewRows.{CanRun, FitsButForRange};
ghost use Rattle.txn_effects.specs.Literals.{values_of};
ghost use Rattle.rep_values.specs.Number.{IsKeyLen};

use crate::literals::key_of_literals;
use rep_schema::{
    Constraint, RowStore, Schema, columns_of, constraint_count, failed_check, key_of, row_in_range,
};
use rep_values::{Key, Literal, Refusal, Row};
use unique_resolve::{ConstraintPlace, is_violated};

/// The key of a row that is as long as its table has columns.
pub(crate) fn key_in<R: RowStore>(store: &R, table: u32, row: &Row) -> Key
    requires able { CanRun (R.schema store.now) (R.tables store.now) table }
    requires long { length (columns_of (R.schema store.now) table) ≡ length row.now }
    ensures { result ≡ key_of (columns_of (R.schema store.now) table) row.now }
{
    key_of(columns_of(store.schema(), table), row.values())
}

/// Whether a row with a key is there.
pub(crate) fn has_row<R: RowStore>(store: &R, table: u32, key: &Key) -> bool
    requires { table < length (R.schema store.now).tables }
    ensures { result ≡ is_some (row_at (R.schema store.now) (R.tables store.now) table key.now) }
{
    store.get(table, key).is_some()
}

/// The row with the key of literals.
#[inline(always)]
pub(crate) fn row_of_literals<'a, R: RowStore>(
    store: &'a R,
    table: u32,
    literals: &[Literal],
) -> Option<&'a Row>
    requires table { table < length (R.schema store.now).tables }
    requires key { IsKeyLen (length literals.now) }
    ensures { option_copied result ≡ row_at (R.schema store.now) (R.tables store.now) table (values_of literals.now) }
{
    store.get(table, &key_of_literals(literals))
}

fn constraint_at(schema: &Schema, at: ConstraintPlace) -> &Constraint
    requires table { at.table < length schema.now.tables }
    requires place { at.place < length (constraints_of schema.now at.table) }
    ensures { slice_get (constraints_of schema.now at.table) at.place ≡ Some result.now }
{
    schema
        .tables
        .at(at.table as usize)
        .constraints
        .at(at.place as usize)
}

/// Whether another row has a row's values in one secondary constraint.
fn taken_in<R: RowStore>(
    store: &R,
    at: ConstraintPlace,
    before: Option<&Row>,
    row: &Row,
) -> Option<Refusal>
    requires testable { IsTestable (R.schema store.now) (R.tables store.now) at.table at.place row.now }
    requires before { HasBefore (R.schema store.now) (R.tables store.now) at.table (option_copied before) row.now }
    ensures { (constraint : ConstraintValue) → slice_get (constraints_of (R.schema store.now) at.table) at.place ≡ Some constraint
        → result ≡ taken_step (R.schema store.now) (R.tables store.now) at.table row.now constraint }
{
    if is_violated(store, at, before, row) {
        return Some(Refusal::UniqueTaken(constraint_at(store.schema(), at).name));
    }
    None
}

/// The first secondary constraint in declared order in which another row has a row's values.
#[inline(always)]
fn unique_refusal<R: RowStore>(
    store: &R,
    table: u32,
    before: Option<&Row>,
    row: &Row,
) -> Option<Refusal>
    requires able { CanRun (R.schema store.now) (R.tables store.now) table }
    requires fits { RowFits (columns_of (R.schema store.now) table) row.now }
    requires before { HasBefore (R.schema store.now) (R.tables store.now) table (option_copied before) row.now }
    ensures { result ≡ first_refusal (unique_steps (R.schema store.now) (R.tables store.now) table row.now) }
{
    for i in 0..constraint_count(store.schema(), table) {
        let at = ConstraintPlace {
            table,
            place: i as u32,
        };
        if let Some(refusal) = taken_in(store, at, before, row) {
            return Some(refusal);
        }
    }
    None
}

/// The first check that a row doesn't meet.
#[inline(always)]
fn check_refusal(schema: &Schema, table: u32, row: &Row) -> Option<Refusal>
    requires { table < length schema.now.tables }
    ensures { result ≡ check_step schema.now table row.now }
{
    match failed_check(schema, table, row) {
        Some(check) => Some(Refusal::CheckFailed(check.name)),
        None => None,
    }
}

/// Why a row can't be put, if it can't: a number or stamp out of range, a secondary constraint in which another row has
/// its values, then a check. The row before is the one with its key, if it is given.
#[inline(always)]
pub(crate) fn row_refusal<R: RowStore>(
    store: &R,
    table: u32,
    before: Option<&Row>,
    row: &Row,
) -> Option<Refusal>
    requires able { CanRun (R.schema store.now) (R.tables store.now) table }
    requires kindly { FitsButForRange (R.schema store.now) table row.now }
    requires before { HasBefore (R.schema store.now) (R.tables store.now) table (option_copied before) row.now }
    ensures { result ≡ first_refusal (row_steps (R.schema store.now) (R.tables store.now) table row.now) }
{
    if !row_in_range(row.values()) {
        return Some(Refusal::ValueRange);
    }
    if let Some(refusal) = unique_refusal(store, table, before, row) {
        return Some(refusal);
    }
    check_refusal(store.schema(), table, row)
}
