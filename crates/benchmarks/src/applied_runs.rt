//! Transactions applied to the table.
ghost use Rattle.std.specs.Prelude.{◌≡◌, ◌≤◌, length, IsTrue};
ghost use Rattle.rep_schema.specs.Shape.{HasShape};
ghost use Rattle.conflict_detect.specs.Fits.{TxnFits};
ghost use Rattle.unique_resolve.specs.Numbers.{AreCounters};
ghost use Rattle.txn_effects.specs.Calls.{KeysStandAlone};
ghost use Rattle.conflict_detect.specs.KeysNamed.{HasKeys};

use case_reader::{CaseStop, Words, read_call};
use conflict_detect::fits;
use page_tables::PageTables;
use rep_calls::{Call, Txn};
use rep_lists::{Items, NoMemory};
use rep_schema::{RowStore, Schema};
use rep_values::{Name, SiteName};
use script_lex::lex;
use std::alloc::Global;
use txn_apply::apply_txn;
use unique_resolve::Counters;

/// Where memory is taken from, and where the transactions come from.
#[derive(Clone, Copy)]
pub struct Bench {
    alloc: Global,
    origin: SiteName,
}

impl Bench {
    /// Transactions from a site of this name; None where it is no name.
    pub fn at(alloc: Global, origin: &[u8]) -> Option<Bench> {
        Some(Bench {
            alloc,
            origin: SiteName(Name::of(origin)?),
        })
    }
}

fn txn_of_call(alloc: Global, call: Call) -> Result<Txn, NoMemory> {
    let mut calls = Items::new(alloc);
    calls.push(call)?;
    Txn::of(alloc, calls)
}

/// A transaction of the call that a line is.
fn txn_of(alloc: Global, line: &str) -> Result<Txn, CaseStop> {
    let tokens = lex(alloc, line.as_bytes())?;
    let call = read_call(alloc, &mut Words::of(tokens.as_slice()))?;
    Ok(txn_of_call(alloc, call)?)
}

/// An insert of the row of a number.
fn insert(bench: &Bench, row: u64) -> Result<Txn, CaseStop> {
    let line = format!(in bench.alloc; "insert 0 : 'A' {row} 1000 12344 'n12344'")?;
    txn_of(bench.alloc, &line)
}

/// An update of the row of a number to other values.
fn update_there(bench: &Bench, row: u64) -> Result<Txn, CaseStop> {
    let line = format!(in bench.alloc;
        "update 0 : 'A' {row}, 0 : 1000 > 1003, 1 : 12344 > 12345, 2 : 'n12344' > 'n12345'"
    )?;
    txn_of(bench.alloc, &line)
}

/// An update of the row of a number from those values back.
fn update_back(bench: &Bench, row: u64) -> Result<Txn, CaseStop> {
    let line = format!(in bench.alloc;
        "update 0 : 'A' {row}, 0 : 1003 > 1000, 1 : 12345 > 12344, 2 : 'n12345' > 'n12344'"
    )?;
    txn_of(bench.alloc, &line)
}

/// Whether a transaction fits the schema and has few calls.
fn can_be_applied(schema: &Schema, txn: &Txn) -> bool
    requires { HasShape schema.now }
    ensures fits { IsTrue result → TxnFits schema.now txn.now }
    ensures few { IsTrue result → length txn.now.calls ≤ 1000 }
{
    txn.calls.len() <= 1_000 && fits(schema, txn)
}

/// Whether the transaction is applied.
fn is_applied(store: &mut PageTables, counters: &mut Counters, bench: &Bench, txn: &Txn) -> bool
    requires shape { HasShape store.old.schema }
    requires keys { HasKeys store.old.schema }
    requires apart { KeysStandAlone store.old.schema }
    requires counters { AreCounters store.old.schema counters.old }
    requires fits { TxnFits store.old.schema txn.now }
    requires few { length txn.now.calls ≤ 1000 }
    ensures schema { store.new.schema ≡ store.old.schema }
    ensures counted { AreCounters store.old.schema counters.new }
{
    apply_txn(bench.alloc, store, counters, &bench.origin, txn).is_ok()
}

/// Whether the transaction whose turn it is is applied: at even numbers the first one.
fn is_turn_applied(
    store: &mut PageTables,
    counters: &mut Counters,
    bench: &Bench,
    first: &Txn,
    second: &Txn,
    number: u64,
) -> bool
    requires shape { HasShape store.old.schema }
    requires keys { HasKeys store.old.schema }
    requires apart { KeysStandAlone store.old.schema }
    requires counters { AreCounters store.old.schema counters.old }
    requires fits { TxnFits store.old.schema first.now }
    requires few { length first.now.calls ≤ 1000 }
    requires second_fits { TxnFits store.old.schema second.now }
    requires second_few { length second.now.calls ≤ 1000 }
    ensures schema { store.new.schema ≡ store.old.schema }
    ensures counted { AreCounters store.old.schema counters.new }
{
    if number % 2 == 0 {
        is_applied(store, counters, bench, first)
    } else {
        is_applied(store, counters, bench, second)
    }
}

/// Inserts so many rows.
pub fn filled(
    store: &mut PageTables,
    counters: &mut Counters,
    bench: &Bench,
    rows: u64,
) -> Result<(), CaseStop>
    requires shape { HasShape store.old.schema }
    requires keys { HasKeys store.old.schema }
    requires apart { KeysStandAlone store.old.schema }
    requires counters { AreCounters store.old.schema counters.old }
    ensures schema { store.new.schema ≡ store.old.schema }
    ensures counted { AreCounters store.old.schema counters.new }
{
    for row in 0..rows {
        let txn = insert(bench, row)?;
        if !can_be_applied(store.schema(), &txn) {
            return Err(CaseStop::NoCase);
        }
        if !is_applied(store, counters, bench, &txn) {
            return Err(CaseStop::NoCase);
        }
    }
    Ok(())
}

/// Updates the row in the middle so many times, in turn to other values and back, and counts the updates that were
/// applied.
pub fn updated(
    store: &mut PageTables,
    counters: &mut Counters,
    bench: &Bench,
    rows: u64,
    count: u64,
) -> Result<u64, CaseStop>
    requires shape { HasShape store.old.schema }
    requires keys { HasKeys store.old.schema }
    requires apart { KeysStandAlone store.old.schema }
    requires counters { AreCounters store.old.schema counters.old }
{
    let row = rows / 2;
    let there = update_there(bench, row)?;
    let back = update_back(bench, row)?;
    if !can_be_applied(store.schema(), &there) || !can_be_applied(store.schema(), &back) {
        return Err(CaseStop::NoCase);
    }
    let mut applied: u64 = 0;
    for number in 0..count {
        if is_turn_applied(store, counters, bench, &there, &back, number) {
            applied = applied.saturating_add(1);
        }
    }
    Ok(applied)
}
