//! Calls and transactions: what is left of them in a copy, and for a second holder.

use case_reader::{CaseStop, Words, push_number, push_row, push_values, read_call};
use rep_calls::{Call, Part, Txn};
use rep_lists::{Copies, Items, NoMemory};
use rep_values::{Key, Row};
use std::alloc::Global;

fn push_row_call(
    out: &mut String,
    alloc: Global,
    kind: &str,
    table: u32,
    row: &Row,
) -> Result<(), NoMemory> {
    out.push_str(kind)?;
    push_number(out, alloc, i64::from(table))?;
    out.push_str(" :")?;
    push_row(out, alloc, row)
}

fn push_part(out: &mut String, alloc: Global, part: &Part) -> Result<(), NoMemory> {
    out.push_str(" ,")?;
    push_number(out, alloc, i64::from(part.group))?;
    out.push_str(" :")?;
    push_values(out, alloc, part.old.as_slice())?;
    out.push_str(" >")?;
    push_values(out, alloc, part.new.as_slice())
}

fn push_update(
    out: &mut String,
    alloc: Global,
    table: u32,
    key: &Key,
    parts: &[Part],
) -> Result<(), NoMemory> {
    out.push_str(" update")?;
    push_number(out, alloc, i64::from(table))?;
    out.push_str(" :")?;
    push_values(out, alloc, key.values())?;
    for part in parts {
        push_part(out, alloc, part)?;
    }
    Ok(())
}

/// A call in the words of a case.
fn push_call(out: &mut String, alloc: Global, call: &Call) -> Result<(), NoMemory> {
    match call {
        Call::Insert { table, row } => push_row_call(out, alloc, " insert", *table, row),
        Call::Delete { table, row } => push_row_call(out, alloc, " delete", *table, row),
        Call::Update { table, key, parts } => {
            push_update(out, alloc, *table, key, parts.as_slice())
        }
    }
}

fn push_copy(out: &mut String, alloc: Global, call: &Call) -> Result<(), NoMemory> {
    let copy = call.copy(alloc)?;
    push_call(out, alloc, &copy)
}

/// The copy of a call.
pub fn call_case(out: &mut String, alloc: Global, words: &mut Words) -> Result<(), CaseStop> {
    let call = read_call(alloc, words)?;
    push_copy(out, alloc, &call)?;
    Ok(())
}

/// A call twice.
fn twice(alloc: Global, call: Call) -> Result<Items<Call>, NoMemory> {
    let mut calls = Items::new(alloc);
    calls.push(call.copy(alloc)?)?;
    calls.push(call)?;
    Ok(calls)
}

/// A transaction of a call twice.
fn read_txn(alloc: Global, words: &mut Words) -> Result<Txn, CaseStop> {
    let call = read_call(alloc, words)?;
    let calls = twice(alloc, call)?;
    Ok(Txn::of(alloc, calls)?)
}

/// Two more holders of a transaction, after the first is gone.
fn share(alloc: Global, txn: Txn) -> Result<(Txn, Txn), NoMemory> {
    Ok((txn.share()?, txn.copy(alloc)?))
}

/// How many calls a transaction has, and each of them.
fn push_txn(out: &mut String, alloc: Global, count: i64, calls: &[Call]) -> Result<(), NoMemory> {
    push_number(out, alloc, count)?;
    for call in calls {
        push_call(out, alloc, call)?;
    }
    Ok(())
}

/// A transaction of a call twice, for two more holders, after the first holder is gone.
pub fn txn_case(out: &mut String, alloc: Global, words: &mut Words) -> Result<(), CaseStop> {
    let txn = read_txn(alloc, words)?;
    let (shared, copy) = share(alloc, txn)?;
    push_txn(out, alloc, copy.calls.len() as i64, shared.calls.as_slice())?;
    Ok(())
}
