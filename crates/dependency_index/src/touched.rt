//! The tokens of a transaction that fits a schema.
ghost use Rattle.std.specs.Prelude.{◌≡◌, ◌<◌, ◌++◌, length, IfOk, OnOk};
ghost use Rattle.std.specs.List.{list_any};
ghost use Rattle.rep_schema.specs.Shape.{HasShape};
ghost use Rattle.conflict_detect.specs.Fits.{CallFits, TxnFits};
ghost use Rattle.conflict_detect.specs.KeysNamed.{HasKeys, key_named};
ghost use Rattle.dependency_index.specs.Tokens.{is_constrained, has_constrained_column, touches_constraints, call_tokens, txn_tokens, is_unique_token};

use crate::{Token, Tokens};
use conflict_detect::table_of;
use rep_calls::{Call, Part, Txn};
use rep_lists::{Items, NoMemory};
use rep_schema::{Schema, constraint_count, constraints_of, group_columns, key_in};
use rep_values::Key;
use schema_names::is_taken;
use std::alloc::Global;

/// The key of the row that a call names.
pub fn key_named(schema: &Schema, call: &Call) -> Key
    requires keys { HasKeys schema.now }
    requires fits { CallFits schema.now call.now }
    ensures { result ≡ key_named schema.now call.now }
{
    match call {
        Call::Insert { table, row } | Call::Delete { table, row } => key_in(schema, *table, row),
        Call::Update { key, .. } => *key,
    }
}

fn is_constrained(schema: &Schema, table: u32, column: u32) -> bool
    requires { table < length schema.now.tables }
    ensures { result ≡ is_constrained schema.now table column }
{
    is_taken(constraints_of(schema, table), column as usize)
}

fn has_constrained_place(schema: &Schema, table: u32, columns: &[u32]) -> bool
    requires { table < length schema.now.tables }
    ensures { result ≡ list_any (is_constrained schema.now table) columns.now }
{
    for column in columns {
        if is_constrained(schema, table, *column) {
            return true;
        }
    }
    false
}

/// Whether a part's group has a constrained column.
fn has_constrained_column(schema: &Schema, table: u32, part: &Part) -> bool
    requires table { table < length schema.now.tables }
    requires shape { HasShape schema.now }
    ensures { result ≡ has_constrained_column schema.now table part.now }
{
    let columns = group_columns(schema, table, part.group);
    has_constrained_place(schema, table, columns.as_slice())
}

fn has_constrained_part(schema: &Schema, table: u32, parts: &[Part]) -> bool
    requires table { table < length schema.now.tables }
    requires shape { HasShape schema.now }
    ensures { result ≡ list_any (has_constrained_column schema.now table) parts.now }
{
    for part in parts {
        if has_constrained_column(schema, table, part) {
            return true;
        }
    }
    false
}

fn touches_constraints(schema: &Schema, call: &Call) -> bool
    requires shape { HasShape schema.now }
    requires fits { CallFits schema.now call.now }
    ensures { result ≡ touches_constraints schema.now call.now }
{
    // Most tables have no constraint, and then no group's columns are looked at.
    if constraint_count(schema, table_of(call)) == 0 {
        return false;
    }
    match call {
        Call::Insert { .. } | Call::Delete { .. } => true,
        Call::Update { table, parts, .. } => has_constrained_part(schema, *table, parts.as_slice()),
    }
}

/// Adds the tokens of a call.
fn add_call(list: &mut Items<Token>, schema: &Schema, call: &Call) -> Result<(), NoMemory>
    requires shape { HasShape schema.now }
    requires keys { HasKeys schema.now }
    requires fits { CallFits schema.now call.now }
    ensures { OnOk result (list.new ≡ list.old ++ call_tokens schema.now call.now) }
{
    let table = table_of(call);
    let key = key_named(schema, call);
    list.push(Token::Key { table, key })?;
    if touches_constraints(schema, call) {
        list.push(Token::Unique { table })?;
    }
    Ok(())
}

/// The tokens of a transaction that fits the schema, call by call.
pub fn tokens_of(alloc: Global, schema: &Schema, txn: &Txn) -> Result<Tokens, NoMemory>
    requires shape { HasShape schema.now }
    requires keys { HasKeys schema.now }
    requires fits { TxnFits schema.now txn.now }
    ensures { IfOk result (λ tokens. tokens.list ≡ txn_tokens schema.now txn.now) }
{
    let mut list = Items::with_capacity(alloc, txn.calls.as_slice().len())?;
    for call in txn.calls.as_slice() {
        add_call(&mut list, schema, call)?;
    }
    Ok(Tokens { list })
}

/// Whether the tokens of a transaction that fits the schema have one of a table's constraints. It takes no memory.
pub fn has_unique_token(schema: &Schema, txn: &Txn) -> bool
    requires shape { HasShape schema.now }
    requires fits { TxnFits schema.now txn.now }
    ensures { result ≡ list_any is_unique_token (txn_tokens schema.now txn.now) }
{
    for call in txn.calls.as_slice() {
        if touches_constraints(schema, call) {
            return true;
        }
    }
    false
}
