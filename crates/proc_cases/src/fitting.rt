//! The tests of what a site of procedures asks: that procedures are ones of a schema, and that calls fit them.
ghost use Rattle.std.specs.Prelude.{◌≡◌, ◌<◌, ◌≤◌, true, length, slice_get, IsTrue};
ghost use Rattle.std.specs.List.{AllByRecursion};
ghost use Rattle.proc_state.specs.Calls.{TakesAmounts, ActsOn, IsProcedure, AreProcedures, is_amount, values_fit, call_fits, calls_fit};

use proc_calls::ProcSite;
use proc_state::{Action, ProcCall, Procedure};
use rep_schema::{
    Column, Kind, RowStore, Schema, columns_of, constraints_of, row_fits, value_in_range,
};
use rep_values::Value;
use snapshot_query::Test;

/// Whether each test is of one of the columns.
fn are_of_columns(columns: &[Column], tests: &[Test]) -> bool
    ensures { IsTrue result → AllByRecursion (λ test. test.column < length columns.now) tests.now }
{
    for test in tests {
        if test.column as usize >= columns.len() {
            return false;
        }
    }
    true
}

/// Whether there is a NUMBER column outside the key at a place.
fn takes_amounts(columns: &[Column], place: u32) -> bool
    ensures { IsTrue result → TakesAmounts (slice_get columns.now place) }
{
    match columns.get(place as usize) {
        Some(
            Column {
                kind: Kind::Number,
                key: false,
                ..
            },
        ) => true,
        Some(_) | None => false,
    }
}

/// Whether the columns that an action names are among these.
fn acts_on(columns: &[Column], action: &Action) -> bool
    ensures { IsTrue result → ActsOn columns.now action.now }
{
    match action {
        Action::Put => true,
        Action::Add { column, tests } => {
            takes_amounts(columns, *column) && are_of_columns(columns, tests.tests.as_slice())
        }
        Action::Drop { tests } => are_of_columns(columns, tests.tests.as_slice()),
    }
}

/// Whether it is a procedure of a table of the schema, which has at most 30 columns and no secondary constraint.
fn is_procedure(schema: &Schema, procedure: &Procedure) -> bool
    ensures { IsTrue result → IsProcedure schema.now procedure.now }
{
    if procedure.table as usize >= schema.tables.len() {
        return false;
    }
    let columns = columns_of(schema, procedure.table);
    columns.len() <= 30
        && constraints_of(schema, procedure.table).is_empty()
        && acts_on(columns, &procedure.action)
}

/// Whether each is a procedure of a table of the schema.
pub fn are_procedures(schema: &Schema, procedures: &[Procedure]) -> bool
    ensures { IsTrue result → AreProcedures schema.now procedures.now }
{
    for procedure in procedures {
        if !is_procedure(schema, procedure) {
            return false;
        }
    }
    true
}

/// Whether it is one number in range.
fn is_amount(values: &[Value]) -> bool
    ensures { result ≡ is_amount values.now }
{
    match values {
        [Value::Num(number)] => value_in_range(&Value::Num(*number)),
        [Value::Words(_)] | [] | [_, _, ..] => false,
    }
}

/// Whether an action on a table of these columns takes the values.
fn values_fit(columns: &[Column], action: &Action, values: &[Value]) -> bool
    ensures { result ≡ values_fit columns.now action.now values.now }
{
    match action {
        Action::Put => row_fits(columns, values),
        Action::Add { .. } => is_amount(values),
        Action::Drop { .. } => values.is_empty(),
    }
}

/// Whether a call is of a procedure that is there, and its values fit it.
fn call_fits(schema: &Schema, procedures: &[Procedure], call: &ProcCall) -> bool
    ensures { IsTrue result → call_fits schema.now procedures.now call.now ≡ true }
{
    let Some(procedure) = procedures.get(call.procedure as usize) else {
        return false;
    };
    if procedure.table as usize >= schema.tables.len() {
        return false;
    }
    let columns = columns_of(schema, procedure.table);
    values_fit(columns, &procedure.action, call.values.as_slice())
}

fn each_call_fits(schema: &Schema, procedures: &[Procedure], calls: &[ProcCall]) -> bool
    ensures { IsTrue result → calls_fit schema.now procedures.now calls.now ≡ true }
{
    for call in calls {
        if !call_fits(schema, procedures, call) {
            return false;
        }
    }
    true
}

/// Whether these are 1 to 1,000 calls that fit a site's procedures.
pub fn can_be_called(site: &ProcSite, calls: &[ProcCall]) -> bool
    ensures fit { IsTrue result → calls_fit site.now.schema site.now.procedures calls.now ≡ true }
    ensures some { IsTrue result → 1 ≤ length calls.now }
    ensures most { IsTrue result → length calls.now ≤ 1000 }
{
    if calls.is_empty() || calls.len() > 1000 {
        return false;
    }
    each_call_fits(site.store().schema(), site.procedures(), calls)
}
