//! The rows of a table whose parent passes, made from older rows by what was changed since.
ghost use Rattle.std.specs.Prelude.{◌≡◌, ◌<◌, length, IfOk};
ghost use Rattle.rep_lists.specs.Rising.{IsRising};
ghost use Rattle.rep_values.specs.Order.{key_cmp};
ghost use Rattle.rep_schema.specs.Tables.{columns_of, IsKeyed};

use crate::calls::text;
use crate::families::{all_shown, read_parent};
use crate::refreshed::{keyed_table_in, read_master};
use crate::up_to_date::{any_row, shows_but, with_waiting};
use case_reader::{CaseStop, Words};
use change_logs::Log;
use refreshes::{MasterView, rows_shown};
use rep_lists::Items;
use rep_schema::{RowStore, holds_tables};
use rep_values::{Key, Row};
use row_tables::ListTables;
use script_lex::Symbol;
use snapshot_query::Parent;
use std::alloc::Global;
use subquery_snapshots::{CountedRows, Rule, rows_fast, subquery_laws};

/// Notes the key behind a colon.
fn note_next(alloc: Global, log: &mut Log, words: &mut Words) -> Result<(), CaseStop> {
    words.symbol(Symbol::Colon)?;
    let key = words.key(alloc)?;
    log.reserve(1)?;
    log.note(key, 1);
    Ok(())
}

/// The keys up to a comma, each behind a colon, as a log gives them.
fn pending_keys(alloc: Global, words: &mut Words) -> Result<Items<Key>, CaseStop>
    ensures { IfOk result (IsRising key_cmp) }
{
    let mut log = Log::make(alloc, 0);
    for _ in 0..u64::MAX {
        if words.passes(Symbol::Comma) {
            break;
        }
        note_next(alloc, &mut log, words)?;
    }
    Ok(log.pending(alloc, 0)?)
}

/// The look-ups beside the most that there may be, and the rows.
fn told(alloc: Global, lookups: u64, most: u64, rows: &[Row]) -> Result<String, CaseStop> {
    let rows = all_shown(alloc, rows)?;
    Ok(format!(in alloc; "lookups {lookups} of {most}, {rows}")?)
}

/// Two look-ups for each key and each parent, and one for each child.
fn most_lookups(keys: usize, parents: usize, all: usize) -> u64 {
    let twice = keys.saturating_add(parents.saturating_mul(2));
    twice.saturating_add(all) as u64
}

/// The rows that are made from older ones, where these show what is up to date.
fn by_keys_and_parents<R: RowStore>(
    alloc: Global,
    master: &R,
    older: &ListTables,
    table: u32,
    parent: &Parent,
    keys: &Items<Key>,
    parents: &[Key],
) -> Result<String, CaseStop>
    requires table { table < length (R.schema master.now).tables }
    requires keyed { IsKeyed (columns_of (R.schema master.now) table) }
    requires parent { parent.now.table < length (R.schema master.now).tables }
    requires keys { IsKeyed (columns_of (R.schema master.now) parent.now.table) }
    requires schema { older.now.schema ≡ R.schema master.now }
    requires rising { IsRising key_cmp parents.now }
{
    let all = with_waiting(alloc, master, table, parent, keys, parents)?;
    if !shows_but(alloc, master, older, table, parent, all.as_slice())? {
        return text(alloc, "a settled row differs");
    }
    subquery_laws();
    holds_tables(master);
    let any = any_row(alloc);
    let rows = rows_shown(alloc, &any, older, table)?;
    let mut view = CountedRows::of(master);
    let renewed = rows_fast(
        alloc,
        master.schema(),
        table,
        &Rule::Parent(parent),
        rows.as_slice(),
        &mut view,
        keys.as_slice(),
        parents,
    )?;
    let most = most_lookups(keys.len(), parents.len(), all.len());
    told(alloc, view.lookups(), most, renewed.as_slice())
}

/// The rows of a table that have such a parent, from the rows that the line ends with, by keys and parents.
pub fn renewed<R: RowStore>(
    alloc: Global,
    store: &R,
    words: &mut Words,
) -> Result<String, CaseStop> {
    let table = keyed_table_in(store, words)?;
    let parent = read_parent(alloc, store, words)?;
    let keys = pending_keys(alloc, words)?;
    let parents = pending_keys(alloc, words)?;
    let older = read_master(alloc, store, table, words)?;
    by_keys_and_parents(
        alloc,
        store,
        &older,
        table,
        &parent,
        &keys,
        parents.as_slice(),
    )
}
