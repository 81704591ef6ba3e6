//! Copies of the rows that a transaction names.
ghost use Rattle.std.specs.Prelude.{◌≡◌, ℕ, true, IfOk, OnOk};
ghost use Rattle.rep_schema.specs.Tables.{Cells};
ghost use Rattle.conflict_detect.specs.Fits.{CallFits, TxnFits};
ghost use Rattle.conflict_detect.specs.KeysNamed.{HasKeys};
ghost use Rattle.dependency_index.specs.declared.token.Token.{Token};
ghost use Rattle.dependency_index.specs.Tokens.{txn_tokens, has_token};
ghost use Rattle.txn_apply.specs.Naming.{AreSomeOf, HaveAlike, TakesNamed};

use conflict_detect::table_of;
use dependency_index::key_named;
use rep_calls::{Call, Txn};
use rep_lists::NoMemory;
use rep_schema::{RowStore, copy_of_row, holds_tables};
use row_tables::{ListTables, SharedSchema};
use std::alloc::Global;

/// Copies the row that a call names from a store into tables that have some of its rows.
fn copy_named<R: RowStore>(
    alloc: Global,
    store: &R,
    call: &Call,
    tables: &mut ListTables,
) -> Result<(), NoMemory>
    requires keys { HasKeys (R.schema store.now) }
    requires fits { CallFits (R.schema store.now) call.now }
    requires schema { tables.old.schema ≡ R.schema store.now }
    requires some { AreSomeOf (R.schema store.now) (R.tables store.now) tables.old.tables }
    ensures schema { tables.new.schema ≡ R.schema store.now }
    ensures ok { OnOk result (TakesNamed (R.schema store.now) call.now (R.tables store.now) tables.old.tables tables.new.tables) }
{
    holds_tables(store);
    let table = table_of(call);
    let key = key_named(store.schema(), call);
    if let Some(row) = copy_of_row(alloc, store, table, &key)? {
        tables.reserve(table, 1)?;
        let _ = tables.put(table, row);
    }
    Ok(())
}

/// Tables of the store's schema, which is shared, with copies of just those rows that a transaction names.
pub(crate) fn rows_named<R: RowStore>(
    alloc: Global,
    store: &R,
    schema: SharedSchema,
    txn: &Txn,
) -> Result<ListTables, NoMemory>
    requires schema { schema ≡ R.schema store.now }
    requires keys { HasKeys (R.schema store.now) }
    requires fits { TxnFits (R.schema store.now) txn.now }
    ensures schema { IfOk result (λ tables. tables.schema ≡ R.schema store.now) }
    ensures alike { IfOk result (λ tables. (table : ℕ) (key : Cells) → has_token (txn_tokens (R.schema store.now) txn.now) (Token.Key table key) ≡ true
        → HaveAlike (R.schema store.now) (R.tables store.now) tables.tables table key) }
{
    holds_tables(store);
    let mut tables = ListTables::sharing(alloc, schema)?;
    for call in txn.calls.as_slice() {
        copy_named(alloc, store, call, &mut tables)?;
    }
    Ok(tables)
}
