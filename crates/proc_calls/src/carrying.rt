//! Calls of procedures as they are carried: each as a row of a carrier, which names its procedure by its place.
ghost use Rattle.std.specs.Prelude.{◌≡◌, ◌<◌, ◌≤◌, [], ◌∷◌, true, pos, length, drop, take, slice_get, slice_set, is_some, option_copied, Some, IfOk};
ghost use Rattle.rep_values.specs.Equality.{value_eq};
ghost use Rattle.rep_values.specs.declared.value.Value.TheVariants.{Num};
ghost use Rattle.rep_schema.specs.Groups.{with_values, are_same};
ghost use Rattle.site_state.specs.Fits.{SchemaIsKeyed};
ghost use Rattle.proc_state.specs.Calls.{TakesAmounts, ActsOn, IsProcedure, AreProcedures, call_fits, calls_fit};
ghost use Rattle.proc_state.specs.Carriers.{blank, blanks, carried_values, carrier_row, carried, carried_txn, place_in, place_named, has_form, is_row_of, call_in, is_carried};
ghost use Rattle.proc_calls.specs.Carrying.{CallCanBeCarried, CanBeCarried};

use proc_state::{Action, ProcCall, Procedure};
use rep_calls::{Call, Txn};
use rep_lists::{Items, NoMemory};
use rep_schema::{Column, Schema, columns_of, row_fits};
use rep_values::{Row, Text, Value, same_value};
use std::alloc::Global;

/// 0, or the empty text where a column takes texts.
fn blank(column: &Column) -> Value
    ensures { result ≡ blank column.now }
{
    if column.kind.takes_numbers() {
        return Value::Num(0);
    }
    let Some(empty) = Text::of(b"") else {
        unreachable!()
    };
    Value::Words(empty)
}

/// Whether there is a blank for each column, and nothing else.
fn are_blank(columns: &[Column], values: &[Value]) -> bool
    ensures { result ≡ are_same values.now (blanks columns.now) }
{
    if columns.len() != values.len() {
        return false;
    }
    for i in 0..columns.len() {
        if !same_value(&values[i], &blank(&columns[i])) {
            return false;
        }
    }
    true
}

/// Whether there is a blank for each column, where 0 stands at one that takes amounts.
fn are_blank_but(column: u32, columns: &[Column], values: &[Value]) -> bool
    requires { TakesAmounts (slice_get columns.now column) }
    ensures { result ≡ are_same (slice_set values.now column (Num (pos 0))) (blanks columns.now) }
{
    let place = column as usize;
    if columns.len() != values.len() {
        return false;
    }
    are_blank(&columns[..place], &values[..place])
        && are_blank(&columns[place + 1..], &values[place + 1..])
}

/// Whether values are of the form in which an action's are carried.
fn has_form(columns: &[Column], action: &Action, values: &[Value]) -> bool
    requires { ActsOn columns.now action.now }
    ensures { result ≡ has_form columns.now action.now values.now }
{
    match action {
        Action::Put => row_fits(columns, values),
        Action::Add { column, .. } => {
            row_fits(columns, values) && are_blank_but(*column, columns, values)
        }
        Action::Drop { .. } => are_blank(columns, values),
    }
}

/// The place of the procedure that a carrier's row names.
fn place_named(row: &[Value]) -> u64
    ensures { result ≡ place_named row.now }
{
    match row.get(1) {
        Some(Value::Num(place)) => place.unsigned_abs(),
        Some(Value::Words(_)) | None => 0,
    }
}

/// Whether a value is a number that isn't below 0.
fn is_place(value: &Value) -> bool
    ensures { result ≡ value_eq value.now (Num (pos (place_in (Some value.now)))) }
{
    match value {
        Value::Num(number) => 0 <= *number,
        Value::Words(_) => false,
    }
}

/// Whether a row begins as a carrier's does: with 0 as key, and a place.
fn is_headed(row: &[Value]) -> bool
    ensures { result ≡ are_same (take 2 row.now) (carrier_row (place_named row.now) []) }
{
    match row {
        [key, place, ..] => same_value(key, &Value::Num(0)) && is_place(place),
        [] | [_] => false,
    }
}

/// The values of a carrier's row behind its beginning.
pub(crate) fn carried_in(row: &[Value]) -> &[Value]
    ensures { result.now ≡ drop 2 row.now }
{
    &row[row.len().min(2)..]
}

/// The procedure at a place.
fn procedure_at(procedures: &[Procedure], place: u64) -> Option<&Procedure>
    ensures { option_copied result ≡ slice_get procedures.now place }
{
    procedures.get(place as usize)
}

/// The procedure that a carrier's row names.
pub(crate) fn procedure_named<'a>(
    procedures: &'a [Procedure],
    row: &[Value],
) -> Option<&'a Procedure>
    ensures { option_copied result ≡ slice_get procedures.now (place_named row.now) }
{
    procedure_at(procedures, place_named(row))
}

/// Whether a row of the carrier of a table has the form of calls of a procedure.
fn is_row_of(schema: &Schema, table: u32, row: &[Value], procedure: &Procedure) -> bool
    requires { IsProcedure schema.now procedure.now }
    ensures { result ≡ is_row_of schema.now table row.now procedure.now }
{
    procedure.table == table
        && is_headed(row)
        && has_form(
            columns_of(schema, procedure.table),
            &procedure.action,
            carried_in(row),
        )
}

/// Whether a call has the form of a call of a procedure.
fn is_of_form(schema: &Schema, procedures: &[Procedure], call: &Call) -> bool
    requires { AreProcedures schema.now procedures.now }
    ensures { result ≡ is_some (call_in schema.now procedures.now call.now) }
{
    let Call::Insert { table, row } = call else {
        return false;
    };
    let Some(procedure) = procedure_named(procedures, row.values()) else {
        return false;
    };
    is_row_of(schema, *table, row.values(), procedure)
}

/// Whether each call of a transaction has the form of a call of a procedure.
pub(crate) fn is_carried(schema: &Schema, procedures: &[Procedure], txn: &Txn) -> bool
    requires { AreProcedures schema.now procedures.now }
    ensures { result ≡ is_carried schema.now procedures.now txn.now }
{
    for call in txn.calls.as_slice() {
        if !is_of_form(schema, procedures, call) {
            return false;
        }
    }
    true
}

/// A blank for each column.
fn blanks(alloc: Global, columns: &[Column]) -> Result<Vec<Value>, NoMemory>
    ensures { IfOk result (λ values. values.items ≡ blanks columns.now) }
{
    let values = columns.iter().map(|column| blank(column)).collect(alloc)?;
    Ok(values)
}

/// A blank for each column, and the first of some values at one of them.
fn blanks_but(
    alloc: Global,
    columns: &[Column],
    column: u32,
    values: &[Value],
) -> Result<Vec<Value>, NoMemory>
    requires { column < length columns.now }
    ensures { IfOk result (λ carried. carried.items ≡ with_values (column ∷ []) values.now (blanks columns.now)) }
{
    let mut carried = blanks(alloc, columns)?;
    if let Some(value) = values.first() {
        carried[column as usize] = *value;
    }
    Ok(carried)
}

/// The values in which an action's are carried.
fn carried_values(
    alloc: Global,
    columns: &[Column],
    action: &Action,
    values: &[Value],
) -> Result<Vec<Value>, NoMemory>
    requires { ActsOn columns.now action.now }
    ensures { IfOk result (λ carried. carried.items ≡ carried_values columns.now action.now values.now) }
{
    match action {
        Action::Put => Ok(Vec::from_slice(alloc, values)?),
        Action::Add { column, .. } => blanks_but(alloc, columns, *column, values),
        Action::Drop { .. } => blanks(alloc, columns),
    }
}

/// The row of a carrier: 0 as key, the place of a procedure, and at most 30 values.
fn carrier_row(alloc: Global, place: u32, values: &[Value]) -> Result<Row, NoMemory>
    requires { length values.now ≤ 30 }
    ensures { IfOk result (λ row. row ≡ carrier_row place values.now) }
{
    let mut cells = Vec::with_capacity(alloc, values.len() + 2)?;
    cells.push_reserved(Value::Num(0));
    cells.push_reserved(Value::Num(i64::from(place)));
    cells.extend_from_slice(values)?;
    let Some(row) = Row::from_items(Items::from_vec(cells)) else {
        unreachable!()
    };
    Ok(row)
}

/// A call as it is carried.
fn carried(
    alloc: Global,
    schema: &Schema,
    procedures: &[Procedure],
    call: &ProcCall,
) -> Result<Call, NoMemory>
    requires keyed { SchemaIsKeyed schema.now }
    requires procedures { AreProcedures schema.now procedures.now }
    requires fits { call_fits schema.now procedures.now call.now ≡ true }
    ensures call { IfOk result (λ carrier. carrier ≡ carried schema.now procedures.now call.now) }
    ensures plain { IfOk result CallCanBeCarried }
{
    let Some(procedure) = procedure_at(procedures, call.procedure as u64) else {
        unreachable!()
    };
    let values = carried_values(
        alloc,
        columns_of(schema, procedure.table),
        &procedure.action,
        call.values.as_slice(),
    )?;
    let row = carrier_row(alloc, call.procedure, &values)?;
    Ok(Call::Insert {
        table: procedure.table,
        row,
    })
}

/// Calls as a transaction.
pub(crate) fn carried_txn(
    alloc: Global,
    schema: &Schema,
    procedures: &[Procedure],
    calls: &[ProcCall],
) -> Result<Txn, NoMemory>
    requires keyed { SchemaIsKeyed schema.now }
    requires procedures { AreProcedures schema.now procedures.now }
    requires fit { calls_fit schema.now procedures.now calls.now ≡ true }
    requires some { 1 ≤ length calls.now }
    requires most { length calls.now ≤ 1000 }
    ensures txn { IfOk result (λ txn. txn ≡ carried_txn schema.now procedures.now calls.now) }
    ensures plain { IfOk result CanBeCarried }
{
    let mut carriers = Vec::with_capacity(alloc, calls.len())?;
    for call in calls {
        carriers.push_reserved(carried(alloc, schema, procedures, call)?);
    }
    let txn = Txn::of(alloc, Items::from_vec(carriers))?;
    Ok(txn)
}
