//! How uniqueness is settled.
ghost use Rattle.std.specs.Prelude.{◌≡◌, ◌<◌, List, length, Some, IfSome, is_some, is_none, option_copied, slice_get};
ghost use Rattle.std.specs.List.{list_any};
ghost use Rattle.rep_schema.specs.Changes.{row_like};
ghost use Rattle.rep_schema.specs.Shape.{HasShape};
ghost use Rattle.rep_schema.specs.Tables.{columns_of, key_of, find_row, rows_of, IsKeyed, RowFits};
ghost use Rattle.unique_resolve.specs.Numbers.{AreCounters};
ghost use Rattle.unique_resolve.specs.Settling.{is_discard, key_methods_in, key_taken, settlement_of};

use crate::Counters;
use rep_schema::{RowStore, Schema, UniqueMethod, columns_of, key_name, key_of};
use rep_values::{Name, Row, SiteName};

/// What becomes of a row that is to be put into a table.
#[derive(Drop)]
pub enum Settled {
    /// The row, as it can be put.
    Fits(Row),
    /// The row is given up.
    Dropped,
    /// No method helps with this constraint, `key` being the primary key's.
    Conflict(Name),
}

fn is_discard(method: &UniqueMethod) -> bool
    ensures { result ≡ is_discard method.now }
{
    match method {
        UniqueMethod::Discard => true,
        UniqueMethod::AppendSite(_) | UniqueMethod::AppendSequence(_) => false,
    }
}

fn has_discard(methods: &[UniqueMethod]) -> bool
    ensures { result ≡ list_any is_discard methods.now }
{
    methods.iter().any(|method| is_discard(method))
}

/// What becomes of a row whose key is taken. Of the methods discard alone helps, since appends change no key.
fn key_taken(methods: &[UniqueMethod]) -> Settled
    ensures { result ≡ key_taken methods.now }
{
    if has_discard(methods) {
        Settled::Dropped
    } else {
        Settled::Conflict(key_name())
    }
}

/// The methods of the constraint of a table's primary key.
fn key_methods(schema: &Schema, table: u32) -> &[UniqueMethod]
    requires { table < length schema.now.tables }
    ensures { result.now ≡ key_methods_in (slice_get schema.now.tables table) }
{
    schema.tables.at(table as usize).key_methods.as_slice()
}

/// Whether a row of the table has the row's key.
fn has_key_of<R: RowStore>(store: &R, table: u32, row: &Row) -> bool
    requires table { table < length (R.schema store.now).tables }
    requires keyed { IsKeyed (columns_of (R.schema store.now) table) }
    requires fits { RowFits (columns_of (R.schema store.now) table) row.now }
    ensures { result ≡ is_some (find_row (columns_of (R.schema store.now) table) (key_of (columns_of (R.schema store.now) table) row.now) (rows_of (R.tables store.now) table)) }
{
    let key = key_of(columns_of(store.schema(), table), row.values());
    store.get(table, &key).is_some()
}

/// What becomes of a row that is to be put into a table from an origin, as a new one or in the place of the row
/// before. For a new one the primary key comes first, then the secondary constraints in declared order, each against
/// rows with another key. The methods of a violated constraint are tried in sequence, and append-sequence raises the
/// constraint's counter at each try. A constraint in which the row before has the same values isn't looked at, since that
/// row is unique. It takes no memory.
pub fn settle_unique<R: RowStore>(
    store: &R,
    table: u32,
    before: Option<&Row>,
    row: Row,
    origin: &SiteName,
    counters: &mut Counters,
) -> Settled
    requires table { table < length (R.schema store.now).tables }
    requires shape { HasShape (R.schema store.now) }
    requires keyed { IsKeyed (columns_of (R.schema store.now) table) }
    requires before { IfSome (option_copied before) (λ before. row_like (columns_of (R.schema store.now) table) row (rows_of (R.tables store.now) table) ≡ Some before) }
    requires fits { RowFits (columns_of (R.schema store.now) table) row }
    requires counters { AreCounters (R.schema store.now) counters.old }
    ensures settled { result ≡ (settlement_of (R.schema store.now) (R.tables store.now) counters.old origin.now table (is_none (option_copied before.entry)) row).settled }
    ensures counters { counters.new ≡ (settlement_of (R.schema store.now) (R.tables store.now) counters.old origin.now table (is_none (option_copied before.entry)) row).numbers }
{
    if before.is_none() && has_key_of(store, table, &row) {
        return key_taken(key_methods(store.schema(), table));
    }
    counters.settle(store, table, before, row, origin)
}
