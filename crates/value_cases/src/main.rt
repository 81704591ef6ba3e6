//! Cases of values, names, keys, rows, refusals, lists and calls: each line of the input is one, and its outcome is
//! printed behind it.
#![tactic(auto)]

mod calls;
mod cells;
mod lists;
mod order;
mod statements;
mod values;

use anyhow::Result;
use calls::{call_case, txn_case};
use case_reader::{CaseStop, Words};
use cells::cell_case;
use lists::{items_case, roomy_case, shared_case};
use order::{key_order_case, name_order_case, value_order_case};
use script_lex::lex;
use statements::statement_case;
use std::alloc::Global;
use values::{
    byte_case, key_case, literal_case, name_case, refusals_case, row_case, set_case, text_case,
};

/// A case of single values.
fn run_value_case(
    out: &mut String,
    alloc: Global,
    kind: &[u8],
    words: &mut Words,
) -> Result<(), CaseStop> {
    match kind {
        b"cell" => cell_case(out, alloc, words),
        b"text" => text_case(out, alloc, words),
        b"name" => name_case(out, alloc, words),
        b"byte" => byte_case(out, words),
        b"literal" => literal_case(out, alloc, words),
        _ => Err(CaseStop::NoCase),
    }
}

/// A case of keys, rows and refusals, or of single values.
fn run_row_case(
    out: &mut String,
    alloc: Global,
    kind: &[u8],
    words: &mut Words,
) -> Result<(), CaseStop> {
    match kind {
        b"key" => key_case(out, alloc, words),
        b"row" => row_case(out, alloc, words),
        b"set" => set_case(out, alloc, words),
        b"refusals" => refusals_case(out, alloc, words),
        _ => run_value_case(out, alloc, kind, words),
    }
}

/// A case of orders, calls and statements, or of what these are made of.
fn run_order_case(
    out: &mut String,
    alloc: Global,
    kind: &[u8],
    words: &mut Words,
) -> Result<(), CaseStop> {
    match kind {
        b"values" => value_order_case(out, words),
        b"keys" => key_order_case(out, alloc, words),
        b"names" => name_order_case(out, words),
        b"call" => call_case(out, alloc, words),
        b"statement" => statement_case(out, alloc, words),
        _ => run_row_case(out, alloc, kind, words),
    }
}

/// A case by its first word.
fn run_kind(
    out: &mut String,
    alloc: Global,
    kind: &[u8],
    words: &mut Words,
) -> Result<(), CaseStop> {
    match kind {
        b"items" => items_case(out, alloc, words),
        b"roomy" => roomy_case(out, alloc, words),
        b"shared" => shared_case(out, alloc, words),
        b"txn" => txn_case(out, alloc, words),
        _ => run_order_case(out, alloc, kind, words),
    }
}

/// A case, up to the end of the line.
fn run_case(out: &mut String, alloc: Global, words: &mut Words) -> Result<(), CaseStop> {
    let kind = words.word()?;
    run_kind(out, alloc, kind, words)?;
    words.end()
}

fn outcome(alloc: Global, line: &[u8]) -> Result<String, CaseStop> {
    let tokens = lex(alloc, line)?;
    let mut out = String::new(alloc);
    run_case(&mut out, alloc, &mut Words::of(&tokens))?;
    Ok(out)
}

fn echo(rt: &HostRuntime, line: &str) -> Result<()> {
    println!(rt; "{line}")?;
    Ok(())
}

/// Prints a case and these words about it.
fn tell_words(rt: &HostRuntime, line: &str, words: &str) -> Result<()> {
    println!(rt; "{line} =>{words}")?;
    Ok(())
}

/// Prints a case and its outcome.
fn tell(rt: &HostRuntime, line: &str, outcome: Result<String, CaseStop>) -> Result<()> {
    match outcome {
        Ok(outcome) => tell_words(rt, line, outcome.as_str()),
        Err(CaseStop::NoCase) => tell_words(rt, line, " no case"),
        Err(CaseStop::Memory) => tell_words(rt, line, " no memory"),
    }
}

fn answer(rt: &HostRuntime, line: &str) -> Result<()> {
    if line.is_empty() || line.starts_with('#') {
        return echo(rt, line);
    }
    tell(rt, line, outcome(rt.alloc(), line.as_bytes()))
}

fn main(rt: HostRuntime) -> Result<()> {
    for line in rt.lines(rt.alloc()) {
        answer(&rt, &line?)?;
    }
    Ok(())
}
