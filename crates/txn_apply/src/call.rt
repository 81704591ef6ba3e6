//! One call on a store.
ghost use Rattle.std.specs.Prelude.{◌≡◌, ◌<◌, ◌≤◌, false, length, slice_index, IfOk, IfErr};
ghost use Rattle.rep_schema.specs.Groups.{are_same};
ghost use Rattle.conflict_detect.specs.Fits.{table_of};
ghost use Rattle.unique_resolve.specs.Numbers.{has_sequences};
ghost use Rattle.rep_schema.specs.Putting.{changes_of, StepsIn};
ghost use Rattle.txn_effects.specs.Calls.{call_effect};
ghost use Rattle.txn_apply.specs.Stops.{CallStopsAs, CallsAs, CanCall};
ghost use Rattle.txn_apply.specs.Putting.{row_to_put};

use crate::part::settle_parts;
use crate::stop::CallStop;
use rep_calls::{Call, Part};
use rep_lists::Copies;
use rep_schema::{Change, RowStore, Schema, failed_check, key_in, put_with_change};
use rep_values::{ApplyError, Key, Row, SiteName, same_values};
use std::alloc::Global;
use unique_resolve::{Counters, Settled, settle_unique};

/// An update of the row of a table that has a key.
#[derive(Clone, Copy)]
struct RowUpdate<'a> {
    table: u32,
    key: &'a Key,
    parts: &'a [Part],
}

/// The row that a settlement puts, once it meets the checks of its table; none where the row is given up.
fn row_to_put(schema: &Schema, table: u32, settled: Settled) -> Result<Option<Row>, ApplyError>
    requires { table < length schema.now.tables }
    ensures { result ≡ row_to_put schema.now table settled }
{
    match settled {
        Settled::Fits(row) => match failed_check(schema, table, &row) {
            None => Ok(Some(row)),
            Some(check) => Err(ApplyError::CheckFailed(check.name)),
        },
        Settled::Dropped => Ok(None),
        Settled::Conflict(name) => Err(ApplyError::UniqueConflict(name)),
    }
}

/// Whether a row is to be put in the place of the very same one.
fn is_same_row(found: &Row, row: &Row) -> bool
    ensures { result ≡ are_same found.now row.now }
{
    same_values(found.values(), row.values())
}

fn insert_row<R: RowStore>(
    alloc: Global,
    store: &mut R,
    table: u32,
    row: &Row,
    origin: &SiteName,
    counters: &mut Counters,
) -> Result<Option<Change>, CallStop>
    requires able { CanCall (R.schema store.old) (R.tables store.old) counters.old (Call.Insert table row.now) }
    requires room { 1 ≤ slice_index (R.spare store.old) table }
    ensures ok { IfOk result (λ change. CallsAs (call_effect (R.schema store.old) (R.tables store.old) counters.old origin.now (Call.Insert table row.now)) (changes_of change) counters.new) }
    ensures err { IfErr result (CallStopsAs (call_effect (R.schema store.old) (R.tables store.old) counters.old origin.now (Call.Insert table row.now))) }
    ensures still { has_sequences (R.schema store.old) ≡ false → counters.new ≡ counters.old }
    ensures step { StepsIn table (record { schema = R.schema store.old; tables = R.tables store.old; spare = R.spare store.old })
        (record { schema = R.schema store.new; tables = R.tables store.new; spare = R.spare store.new }) result }
{
    let candidate = row.copy(alloc)?;
    let settled = settle_unique(store, table, None, candidate, origin, counters);
    let Some(row) = row_to_put(store.schema(), table, settled)? else {
        return Ok(None);
    };
    let change = put_with_change(alloc, store, table, row)?;
    Ok(Some(change))
}

fn update_row<R: RowStore>(
    alloc: Global,
    store: &mut R,
    update: RowUpdate,
    origin: &SiteName,
    counters: &mut Counters,
) -> Result<Option<Change>, CallStop>
    requires able { CanCall (R.schema store.old) (R.tables store.old) counters.old (Call.Update update.table update.key.now update.parts.now) }
    requires room { 1 ≤ slice_index (R.spare store.old) update.table }
    ensures ok { IfOk result (λ change. CallsAs (call_effect (R.schema store.old) (R.tables store.old) counters.old origin.now (Call.Update update.entry.table update.entry.key.now update.entry.parts.now)) (changes_of change) counters.new) }
    ensures err { IfErr result (CallStopsAs (call_effect (R.schema store.old) (R.tables store.old) counters.old origin.now (Call.Update update.entry.table update.entry.key.now update.entry.parts.now))) }
    ensures still { has_sequences (R.schema store.old) ≡ false → counters.new ≡ counters.old }
    ensures step { StepsIn update.entry.table (record { schema = R.schema store.old; tables = R.tables store.old; spare = R.spare store.old })
        (record { schema = R.schema store.new; tables = R.tables store.new; spare = R.spare store.new }) result }
{
    let Some(found) = store.get(update.table, update.key) else {
        return Err(CallStop::Failed(ApplyError::NoRow));
    };
    let mut row = found.copy(alloc)?;
    settle_parts(store.schema(), update.table, update.parts, &mut row)?;
    let settled = settle_unique(store, update.table, Some(found), row, origin, counters);
    let Some(row) = row_to_put(store.schema(), update.table, settled)? else {
        return Ok(None);
    };
    if is_same_row(found, &row) {
        return Ok(None);
    }
    let change = put_with_change(alloc, store, update.table, row)?;
    Ok(Some(change))
}

fn delete_row<R: RowStore>(
    store: &mut R,
    table: u32,
    row: &Row,
    origin: &SiteName,
    counters: &mut Counters,
) -> Result<Option<Change>, CallStop>
    requires able { CanCall (R.schema store.old) (R.tables store.old) counters.old (Call.Delete table row.now) }
    ensures ok { IfOk result (λ change. CallsAs (call_effect (R.schema store.old) (R.tables store.old) counters.old origin.now (Call.Delete table row.now)) (changes_of change) counters.new) }
    ensures err { IfErr result (CallStopsAs (call_effect (R.schema store.old) (R.tables store.old) counters.old origin.now (Call.Delete table row.now))) }
    ensures still { counters.new ≡ counters.old }
    ensures step { StepsIn table (record { schema = R.schema store.old; tables = R.tables store.old; spare = R.spare store.old })
        (record { schema = R.schema store.new; tables = R.tables store.new; spare = R.spare store.new }) result }
{
    let key = key_in(store.schema(), table, row);
    let Some(found) = store.get(table, &key) else {
        return Err(CallStop::Failed(ApplyError::NoRow));
    };
    if !same_values(found.values(), row.values()) {
        return Err(CallStop::Failed(ApplyError::DeleteConflict));
    }
    let before = store.take(table, &key);
    Ok(Some(Change {
        table,
        before,
        after: None,
    }))
}

/// Applies one call from an origin. Where it stops, the store is as before; the counters are open then, but for those
/// that nothing can raise.
pub(crate) fn apply_call<R: RowStore>(
    alloc: Global,
    store: &mut R,
    origin: &SiteName,
    call: &Call,
    counters: &mut Counters,
) -> Result<Option<Change>, CallStop>
    requires able { CanCall (R.schema store.old) (R.tables store.old) counters.old call.now }
    requires room { 1 ≤ slice_index (R.spare store.old) (table_of call.now) }
    ensures ok { IfOk result (λ change. CallsAs (call_effect (R.schema store.old) (R.tables store.old) counters.old origin.now call.now) (changes_of change) counters.new) }
    ensures err { IfErr result (CallStopsAs (call_effect (R.schema store.old) (R.tables store.old) counters.old origin.now call.now)) }
    ensures still { has_sequences (R.schema store.old) ≡ false → counters.new ≡ counters.old }
    ensures step { StepsIn (table_of call.now) (record { schema = R.schema store.old; tables = R.tables store.old; spare = R.spare store.old })
        (record { schema = R.schema store.new; tables = R.tables store.new; spare = R.spare store.new }) result }
{
    match call {
        Call::Insert { table, row } => insert_row(alloc, store, *table, row, origin, counters),
        Call::Update { table, key, parts } => {
            let update = RowUpdate {
                table: *table,
                key,
                parts: parts.as_slice(),
            };
            update_row(alloc, store, update, origin, counters)
        }
        Call::Delete { table, row } => delete_row(store, *table, row, origin, counters),
    }
}
