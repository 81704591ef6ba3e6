//! What is asked of a table of rows, and how it is told what came of it.

use anyhow::{Context, Result};
use case_reader::CaseStop;
use std::alloc::Global;

/// The numbers of rows and of transactions.
pub fn read_numbers(rows: &str, count: &str) -> Result<(u64, u64)> {
    let rows = rows.parse::<u64>().context("a number of rows")?;
    let count = count.parse::<u64>().context("a number of transactions")?;
    Ok((rows, count))
}

/// An answer of these words.
pub fn text(alloc: Global, words: &str) -> Result<String> {
    let mut out = String::new(alloc);
    out.push_str(words)?;
    Ok(out)
}

fn told_count(alloc: Global, rows: u64, count: u64, run: u64) -> Result<String> {
    Ok(format!(in alloc; "{rows} rows: {run} of {count} transactions")?)
}

/// How many of so many transactions ran on a table of so many rows.
pub fn told_run(
    alloc: Global,
    rows: u64,
    count: u64,
    run: Result<u64, CaseStop>,
) -> Result<String> {
    match run {
        Ok(run) => told_count(alloc, rows, count, run),
        Err(CaseStop::NoCase) => text(alloc, "no table"),
        Err(CaseStop::Memory) => text(alloc, "no memory"),
    }
}
