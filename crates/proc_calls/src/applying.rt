//! A transaction of calls of procedures, applied to a store: all of its calls, or none.
ghost use Rattle.std.specs.Prelude.{◌≡◌, ℕ, ◌<◌, ◌≤◌, [], true, length, slice_index, slice_set, is_some, Ok, IfOk, IfErr, OnOk, OnErr};
ghost use Rattle.std.specs.List.{list_all};
ghost use Rattle.rep_schema.specs.Tables.{columns_of, constraints_of, put_row, rows_of, RowFits, IsKeyed as IsKeyedTable};
ghost use Rattle.rep_schema.specs.Changes.{LeadsTo, room_for};
ghost use Rattle.txn_effects.specs.Transactions.{failing_at};
ghost use Rattle.site_state.specs.Fits.{SchemaIsKeyed};
ghost use Rattle.proc_state.specs.Actions.{after_drop};
ghost use Rattle.proc_state.specs.Calls.{IsProcedure, AreProcedures, procedure_after};
ghost use Rattle.proc_state.specs.Carriers.{has_form, values_in, call_in, txn_after};
ghost use Rattle.proc_state.specs.Fits.{IsProcTxn};
ghost use Rattle.proc_calls.specs.Trails.{KeepsTrail};
ghost use Rattle.proc_calls.specs.Raising.{with_rows};
ghost use Rattle.proc_calls.specs.Carrying.{carried_after, carried_calls_after};
ghost use Rattle.proc_calls.specs.Stops.{CallStopsAs, StopsAs};

use crate::carrying::{carried_in, procedure_named};
use crate::changing::{add, number_at, put, take_each};
use crate::stop::{CallStop, ProcStop, stop_at};
use crate::trail::Trail;
use proc_state::{Action, Procedure};
use rep_calls::{Call, Txn};
use rep_schema::{Changes, RowStore, holds_tables, undo};
use rep_values::{Row, Value};
use snapshot_query::Query;
use std::alloc::Global;

/// Puts a row of these values, in place of the one with its key.
fn put_values<R: RowStore>(
    alloc: Global,
    store: &mut R,
    table: u32,
    values: &[Value],
    trail: &mut Trail,
) -> Result<(), CallStop>
    requires table { table < length (R.schema store.old).tables }
    requires keyed { SchemaIsKeyed (R.schema store.old) }
    requires unconstrained { constraints_of (R.schema store.old) table ≡ [] }
    requires fits { RowFits (columns_of (R.schema store.old) table) values.now }
    ensures ok { OnOk result (R.tables store.new ≡ slice_set (R.tables store.old) table (put_row (columns_of (R.schema store.old) table) values.now (rows_of (R.tables store.old) table))) }
    ensures err { IfErr result (λ stop. stop ≡ CallStop.Memory) }
    ensures trail { KeepsTrail (record { schema = R.schema store.old; tables = R.tables store.old; spare = R.spare store.old })
        (record { schema = R.schema store.new; tables = R.tables store.new; spare = R.spare store.new }) trail.old.items trail.new.items }
{
    let Some(row) = Row::of(alloc, values)? else {
        unreachable!()
    };
    put(alloc, store, table, row, trail)?;
    Ok(())
}

/// Takes each row away that passes the tests.
fn drop_rows<R: RowStore>(
    store: &mut R,
    table: u32,
    tests: &Query,
    trail: &mut Trail,
) -> Result<(), CallStop>
    requires table { table < length (R.schema store.old).tables }
    requires keyed { SchemaIsKeyed (R.schema store.old) }
    ensures ok { OnOk result (R.tables store.new ≡ slice_set (R.tables store.old) table (after_drop tests.now (rows_of (R.tables store.old) table))) }
    ensures err { IfErr result (λ stop. stop ≡ CallStop.Memory) }
    ensures trail { KeepsTrail (record { schema = R.schema store.old; tables = R.tables store.old; spare = R.spare store.old })
        (record { schema = R.schema store.new; tables = R.tables store.new; spare = R.spare store.new }) trail.old.items trail.new.items }
{
    take_each(store, table, tests, trail)?;
    Ok(())
}

/// Does what a procedure does with values in which its action's are carried.
fn act<R: RowStore>(
    alloc: Global,
    store: &mut R,
    procedure: &Procedure,
    values: &[Value],
    trail: &mut Trail,
) -> Result<(), CallStop>
    requires keyed { SchemaIsKeyed (R.schema store.old) }
    requires procedure { IsProcedure (R.schema store.old) procedure.now }
    requires form { has_form (columns_of (R.schema store.old) procedure.now.table) procedure.now.action values.now ≡ true }
    ensures ok { OnOk result (procedure_after (R.schema store.old) procedure.now (values_in procedure.now.action values.now) (R.tables store.old) ≡ Ok (R.tables store.new)) }
    ensures err { IfErr result (CallStopsAs (procedure_after (R.schema store.old) procedure.now (values_in procedure.now.action values.now) (R.tables store.old))) }
    ensures trail { KeepsTrail (record { schema = R.schema store.old; tables = R.tables store.old; spare = R.spare store.old })
        (record { schema = R.schema store.new; tables = R.tables store.new; spare = R.spare store.new }) trail.old.items trail.new.items }
{
    match &procedure.action {
        Action::Put => put_values(alloc, store, procedure.table, values, trail),
        Action::Add { column, tests } => {
            let amount = number_at(values, *column);
            add(alloc, store, procedure.table, *column, tests, amount, trail)
        }
        Action::Drop { tests } => drop_rows(store, procedure.table, tests, trail),
    }
}

/// Makes a call that was carried.
fn apply_call<R: RowStore>(
    alloc: Global,
    store: &mut R,
    procedures: &[Procedure],
    call: &Call,
    trail: &mut Trail,
) -> Result<(), CallStop>
    requires keyed { SchemaIsKeyed (R.schema store.old) }
    requires procedures { AreProcedures (R.schema store.old) procedures.now }
    requires form { is_some (call_in (R.schema store.old) procedures.now call.now) ≡ true }
    ensures ok { OnOk result (carried_after (R.schema store.old) procedures.now call.now (R.tables store.old) ≡ Ok (R.tables store.new)) }
    ensures err { IfErr result (CallStopsAs (carried_after (R.schema store.old) procedures.now call.now (R.tables store.old))) }
    ensures trail { KeepsTrail (record { schema = R.schema store.old; tables = R.tables store.old; spare = R.spare store.old })
        (record { schema = R.schema store.new; tables = R.tables store.new; spare = R.spare store.new }) trail.old.items trail.new.items }
{
    let Call::Insert { row, .. } = call else {
        unreachable!()
    };
    let Some(procedure) = procedure_named(procedures, row.values()) else {
        unreachable!()
    };
    act(alloc, store, procedure, carried_in(row.values()), trail)
}

/// The same for a call with a number, which an answer names where the call fails.
fn apply_numbered<R: RowStore>(
    alloc: Global,
    store: &mut R,
    procedures: &[Procedure],
    number: u32,
    call: &Call,
    trail: &mut Trail,
) -> Result<(), ProcStop>
    requires keyed { SchemaIsKeyed (R.schema store.old) }
    requires procedures { AreProcedures (R.schema store.old) procedures.now }
    requires form { is_some (call_in (R.schema store.old) procedures.now call.now) ≡ true }
    ensures ok { OnOk result (carried_after (R.schema store.old) procedures.now call.now (R.tables store.old) ≡ Ok (R.tables store.new)) }
    ensures err { IfErr result (StopsAs (failing_at number (carried_after (R.schema store.old) procedures.now call.now (R.tables store.old)))) }
    ensures trail { KeepsTrail (record { schema = R.schema store.old; tables = R.tables store.old; spare = R.spare store.old })
        (record { schema = R.schema store.new; tables = R.tables store.new; spare = R.spare store.new }) trail.old.items trail.new.items }
{
    match apply_call(alloc, store, procedures, call, trail) {
        Ok(()) => Ok(()),
        Err(stop) => Err(stop_at(number, stop)),
    }
}

/// Makes one call after the other, up to the first that fails.
fn apply_each<R: RowStore>(
    alloc: Global,
    store: &mut R,
    procedures: &[Procedure],
    calls: &[Call],
    trail: &mut Trail,
) -> Result<(), ProcStop>
    requires keyed { SchemaIsKeyed (R.schema store.old) }
    requires procedures { AreProcedures (R.schema store.old) procedures.now }
    requires form { list_all (λ call. is_some (call_in (R.schema store.old) procedures.now call)) calls.now ≡ true }
    requires few { length calls.now ≤ 1000 }
    ensures ok { OnOk result (carried_calls_after (R.schema store.old) procedures.now 1 calls.now (R.tables store.old) ≡ Ok (R.tables store.new)) }
    ensures err { IfErr result (StopsAs (carried_calls_after (R.schema store.old) procedures.now 1 calls.now (R.tables store.old))) }
    ensures trail { KeepsTrail (record { schema = R.schema store.old; tables = R.tables store.old; spare = R.spare store.old })
        (record { schema = R.schema store.new; tables = R.tables store.new; spare = R.spare store.new }) trail.old.items trail.new.items }
{
    for i in 0..calls.len() {
        apply_numbered(alloc, store, procedures, i as u32 + 1, &calls[i], trail)?;
    }
    Ok(())
}

/// Makes the calls that a transaction carries, and answers what they changed, so that it can be taken back. Where one of them
/// fails, or there is no memory, the tables are as before.
pub(crate) fn apply_txn<R: RowStore>(
    alloc: Global,
    store: &mut R,
    procedures: &[Procedure],
    txn: &Txn,
) -> Result<Changes, ProcStop>
    requires keyed { SchemaIsKeyed (R.schema store.old) }
    requires procedures { AreProcedures (R.schema store.old) procedures.now }
    requires fits { IsProcTxn (R.schema store.old) procedures.now txn.now }
    ensures ok { OnOk result (txn_after (R.schema store.old) procedures.now txn.now (R.tables store.old) ≡ Ok (R.tables store.new)) }
    ensures leads { IfOk result (λ changes. LeadsTo (R.schema store.old) changes.rows (R.tables store.old) (R.tables store.new)) }
    ensures room { IfOk result (λ changes. (table : ℕ) → room_for table changes.rows ≤ slice_index (R.spare store.new) table) }
    ensures err { IfErr result (StopsAs (txn_after (R.schema store.old) procedures.now txn.now (R.tables store.old))) }
    ensures kept { OnErr result (R.tables store.new ≡ R.tables store.old) }
    ensures schema { R.schema store.new ≡ R.schema store.old }
{
    holds_tables(store);
    let mut trail = Trail::new(alloc);
    match apply_each(alloc, store, procedures, txn.calls.as_slice(), &mut trail) {
        Ok(()) => Ok(trail.into_changes()),
        Err(stop) => {
            undo(store, trail.into_changes());
            Err(stop)
        }
    }
}
