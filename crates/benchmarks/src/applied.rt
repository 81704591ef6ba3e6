//! Applied transactions of one update each.

use crate::applied_runs::{Bench, filled, updated};
use crate::asked::{read_numbers, told_run};
use crate::stock::stock;
use anyhow::{Context, Result};
use case_reader::CaseStop;
use page_tables::PageTables;
use rep_laws::sound_schemas_have_keys;
use schema_rules::check;
use std::alloc::Global;
use unique_resolve::Counters;

/// How many transactions were applied of so many, to a table of so many rows.
fn transactions_applied(alloc: Global, rows: u64, count: u64) -> Result<u64, CaseStop> {
    let Some(schema) = stock(alloc)? else {
        return Err(CaseStop::NoCase);
    };
    if check(&schema).is_err() {
        return Err(CaseStop::NoCase);
    }
    sound_schemas_have_keys();
    let Some(bench) = Bench::at(alloc, b"B") else {
        return Err(CaseStop::NoCase);
    };
    let mut counters = Counters::make(alloc, &schema)?;
    let mut store = PageTables::make(alloc, schema)?;
    filled(&mut store, &mut counters, &bench, rows)?;
    updated(&mut store, &mut counters, &bench, rows, count)
}

/// What comes of the rows and the number of transactions that are asked for.
pub fn told(alloc: Global, asked: &str) -> Result<String> {
    let (rows, count) = asked.split_once(' ').context("rows and transactions")?;
    let (rows, count) = read_numbers(rows, count)?;
    told_run(alloc, rows, count, transactions_applied(alloc, rows, count))
}
