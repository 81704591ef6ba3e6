//! One statement on a store.
ghost use Rattle.std.specs.Prelude.{◌≡◌, ◌<◌, ◌≤◌, length, slice_index, Some, IfOk, IfErr};
ghost use Rattle.rep_values.specs.RefusalSteps.{first_refusal};
ghost use Rattle.rep_schema.specs.Shape.{HasShape};
ghost use Rattle.rep_schema.specs.Tables.{columns_of, RowFits};
ghost use Rattle.rep_schema.specs.Putting.{changes_of, StepsIn};
ghost use Rattle.txn_effects.specs.Calls.{KeysStandAlone};
ghost use Rattle.txn_effects.specs.ByColumn.{row_by};
ghost use Rattle.txn_effects.specs.Statements.{insert_in, update_in, delete_in, outcome_in, new_row_steps, insert_steps, update_steps, delete_steps, steps_in};
ghost use Rattle.local_txn.specs.Running.{ChangesTo, AreInOrder, change_steps, order_steps, block_state_of, RunsAs, StatementStopsAs};
ghost use Rattle.txn_effects.specs.NewRows.{CanRun, FitsButForRange};

use crate::convergent::{bar_refusal, insert_refusal, mix_refusal, own_key_refusal, rule_refusal};
use crate::filled::{inserted, updated};
use crate::literals::{key_literals_fit, key_of_literals, row_written, written_fit};
use crate::progress::BlockProgress;
use crate::rows::{has_row, key_in, row_of_literals, row_refusal};
use crate::sets::{SetsByColumn, fills_some, set_row, takes_each};
use rep_calls::{Set, Statement};
use rep_lists::Copies;
use rep_schema::{Change, RowStore, Schema, columns_of, put_with_change};
use rep_values::{Literal, Refusal, Row, same_values};
use std::alloc::Global;
use txn_effects::RowMade;

/// Why a new row can't be put, if it can't.
fn new_row_refusal<R: RowStore>(
    store: &R,
    footing: &BlockProgress,
    table: u32,
    row: &Row,
) -> Option<Refusal>
    requires able { CanRun (R.schema store.now) (R.tables store.now) table }
    requires kindly { FitsButForRange (R.schema store.now) table row.now }
    ensures { result ≡ first_refusal (new_row_steps (R.schema store.now) footing.now.here (block_state_of footing.now (R.tables store.now)) table row.now) }
{
    let key = key_in(store, table, row);
    if has_row(store, table, &key) {
        return Some(Refusal::KeyTaken);
    }
    if let Some(refusal) = insert_refusal(store.schema(), footing, table) {
        return Some(refusal);
    }
    if let Some(refusal) = own_key_refusal(
        store.schema(),
        &footing.here.site,
        table,
        key.values(),
    ) {
        return Some(refusal);
    }
    row_refusal(store, table, None, row)
}

fn insert_row<R: RowStore>(
    alloc: Global,
    store: &mut R,
    footing: &mut BlockProgress,
    table: u32,
    values: &[Literal],
) -> Result<Option<Change>, Refusal>
    requires able { CanRun (R.schema store.old) (R.tables store.old) table }
    requires room { 1 ≤ slice_index (R.spare store.old) table }
    ensures ok { IfOk result (λ change. RunsAs (R.schema store.old) table
        (first_refusal (insert_steps (R.schema store.old) footing.old.here (block_state_of footing.old (R.tables store.old)) table values.now))
        (insert_in (R.schema store.old) footing.old.here (block_state_of footing.old (R.tables store.old)) table values.now) (changes_of change) footing.old footing.new) }
    ensures err { IfErr result (StatementStopsAs (first_refusal (insert_steps (R.schema store.old) footing.old.here
        (block_state_of footing.old (R.tables store.old)) table values.now))) }
    ensures step { StepsIn table (record { schema = R.schema store.old; tables = R.tables store.old; spare = R.spare store.old })
        (record { schema = R.schema store.new; tables = R.tables store.new; spare = R.spare store.new }) result }
{
    let columns = columns_of(store.schema(), table);
    if !written_fit(store.schema(), columns, values) {
        return Err(Refusal::RowShape);
    }
    let row = row_written(alloc, columns, values)?;
    let made = inserted(columns, &footing.stamps, &footing.here.site, row);
    if let Some(refusal) = new_row_refusal(store, footing, table, &made.row) {
        return Err(refusal);
    }
    footing.go_on(store.schema(), table, made.last);
    let change = put_with_change(alloc, store, table, made.row)?;
    Ok(Some(change))
}

/// What an update sets of each column, where its key and its sets are in order.
fn sets_in_order<'a>(
    schema: &Schema,
    table: u32,
    key: &[Literal],
    sets: &'a [Set],
) -> Result<SetsByColumn<'a>, Refusal>
    requires table { table < length schema.now.tables }
    requires shape { HasShape schema.now }
    ensures ok { IfOk result (AreInOrder schema.now table key.now sets.now) }
    ensures err { IfErr result (λ why. first_refusal (order_steps schema.now table key.now sets.now) ≡ Some why) }
{
    let columns = columns_of(schema, table);
    let found = SetsByColumn::of(columns, sets)?;
    if !key_literals_fit(schema, columns, key) || !takes_each(columns, &found) {
        return Err(Refusal::RowShape);
    }
    if fills_some(columns, &found) {
        return Err(Refusal::FilledBySite);
    }
    Ok(found)
}

/// The row that an update makes of another one, unless it is refused for what it sets.
fn changed_row(
    alloc: Global,
    schema: &Schema,
    footing: &BlockProgress,
    table: u32,
    before: &Row,
    sets: &SetsByColumn,
) -> Result<RowMade, Refusal>
    requires table { table < length schema.now.tables }
    requires shape { HasShape schema.now }
    requires fits { RowFits (columns_of schema.now table) before.now }
    ensures ok { IfOk result (ChangesTo schema.now footing.now table before.now (row_by sets.now before.now)) }
    ensures err { IfErr result (StatementStopsAs (first_refusal (change_steps schema.now footing.now.side table before.now (row_by sets.now before.now)))) }
{
    if let Some(refusal) = mix_refusal(schema, footing.side, table) {
        return Err(refusal);
    }
    if let Some(refusal) = rule_refusal(schema, table, before.values(), sets) {
        return Err(refusal);
    }
    let Some(row) = set_row(sets, before.copy(alloc)?) else {
        return Err(Refusal::ValueRange);
    };
    let site = &footing.here.site;
    Ok(updated(schema, table, &footing.stamps, site, before.values(), row))
}

fn update_row<R: RowStore>(
    alloc: Global,
    store: &mut R,
    footing: &mut BlockProgress,
    table: u32,
    key: &[Literal],
    sets: &[Set],
) -> Result<Option<Change>, Refusal>
    requires able { CanRun (R.schema store.old) (R.tables store.old) table }
    requires apart { KeysStandAlone (R.schema store.old) }
    requires room { 1 ≤ slice_index (R.spare store.old) table }
    ensures ok { IfOk result (λ change. RunsAs (R.schema store.old) table
        (first_refusal (update_steps (R.schema store.old) footing.old.here (block_state_of footing.old (R.tables store.old)) table key.now sets.now))
        (update_in (R.schema store.old) footing.old.here (block_state_of footing.old (R.tables store.old)) table key.now sets.now)
        (changes_of change) footing.old footing.new) }
    ensures err { IfErr result (StatementStopsAs (first_refusal (update_steps (R.schema store.old) footing.old.here
        (block_state_of footing.old (R.tables store.old)) table key.now sets.now))) }
    ensures step { StepsIn table (record { schema = R.schema store.old; tables = R.tables store.old; spare = R.spare store.old })
        (record { schema = R.schema store.new; tables = R.tables store.new; spare = R.spare store.new }) result }
{
    let found = sets_in_order(store.schema(), table, key, sets)?;
    let Some(before) = row_of_literals(store, table, key) else {
        return Err(Refusal::NoRow);
    };
    let made = changed_row(alloc, store.schema(), footing, table, before, &found)?;
    if let Some(refusal) = row_refusal(store, table, Some(before), &made.row) {
        return Err(refusal);
    }
    footing.go_on(store.schema(), table, made.last);
    if same_values(before.values(), made.row.values()) {
        return Ok(None);
    }
    let change = put_with_change(alloc, store, table, made.row)?;
    Ok(Some(change))
}

fn delete_row<R: RowStore>(
    store: &mut R,
    footing: &mut BlockProgress,
    table: u32,
    key: &[Literal],
) -> Result<Option<Change>, Refusal>
    requires able { CanRun (R.schema store.old) (R.tables store.old) table }
    ensures ok { IfOk result (λ change. RunsAs (R.schema store.old) table
        (first_refusal (delete_steps (R.schema store.old) (block_state_of footing.old (R.tables store.old)) table key.now))
        (delete_in (R.schema store.old) (block_state_of footing.old (R.tables store.old)) table key.now) (changes_of change) footing.old footing.new) }
    ensures err { IfErr result (StatementStopsAs (first_refusal (delete_steps (R.schema store.old) (block_state_of footing.old (R.tables store.old)) table key.now))) }
    ensures step { StepsIn table (record { schema = R.schema store.old; tables = R.tables store.old; spare = R.spare store.old })
        (record { schema = R.schema store.new; tables = R.tables store.new; spare = R.spare store.new }) result }
{
    if !key_literals_fit(store.schema(), columns_of(store.schema(), table), key) {
        return Err(Refusal::RowShape);
    }
    let key = key_of_literals(key);
    if !has_row(store, table, &key) {
        return Err(Refusal::NoRow);
    }
    if let Some(refusal) = bar_refusal(store.schema(), footing.side, table) {
        return Err(refusal);
    }
    footing.go_on(store.schema(), table, footing.stamps.last);
    let before = store.take(table, &key);
    Ok(Some(Change {
        table,
        before,
        after: None,
    }))
}

/// Runs a statement on its table, for which there is room. Where it stops, the store is as before, and the footing is
/// open.
pub(crate) fn run_in<R: RowStore>(
    alloc: Global,
    store: &mut R,
    footing: &mut BlockProgress,
    table: u32,
    statement: &Statement,
) -> Result<Option<Change>, Refusal>
    requires able { CanRun (R.schema store.old) (R.tables store.old) table }
    requires apart { KeysStandAlone (R.schema store.old) }
    requires room { 1 ≤ slice_index (R.spare store.old) table }
    ensures ok { IfOk result (λ change. RunsAs (R.schema store.old) table
        (first_refusal (steps_in (R.schema store.old) footing.old.here (block_state_of footing.old (R.tables store.old)) table statement.now))
        (outcome_in (R.schema store.old) footing.old.here (block_state_of footing.old (R.tables store.old)) table statement.now)
        (changes_of change) footing.old footing.new) }
    ensures err { IfErr result (StatementStopsAs (first_refusal (steps_in (R.schema store.old) footing.old.here
        (block_state_of footing.old (R.tables store.old)) table statement.now))) }
    ensures step { StepsIn table (record { schema = R.schema store.old; tables = R.tables store.old; spare = R.spare store.old })
        (record { schema = R.schema store.new; tables = R.tables store.new; spare = R.spare store.new }) result }
{
    match statement {
        Statement::Insert { table: _, values } => {
            insert_row(alloc, store, footing, table, values.as_slice())
        }
        Statement::Update {
            table: _,
            key,
            sets,
        } => update_row(
            alloc,
            store,
            footing,
            table,
            key.as_slice(),
            sets.as_slice(),
        ),
        Statement::Delete { table: _, key } => delete_row(store, footing, table, key.as_slice()),
    }
}
