//! Packets, their bytes and what becomes of them between two sites as cases: each line is one, and its outcome is printed.
//!
//! `call CALL` puts a call behind those that are kept, and `again N` the last one so many times more. `carry FROM TO
//! NUMBER POSITION DEP [past ORIGIN NUMBER ..]` is the packet of the calls that are kept, which are then forgotten, and
//! `mark FROM TO MARK` a mark: its bytes are printed. `bytes PIECE..` are bytes, a piece being hexadecimal digits or
//! `DIGITS*COUNT`: the packet that they are is printed. `near PIECE..` counts the packets among all bytes that differ
//! from these at one place, end early or have one byte more. Where a packet doesn't have its bytes again, or those of
//! version 2 that tell the same, `and others` is printed.
//!
//! `plan WORD..` does one word after another on a new net: `pass`, `lose`, `twice` and `late` are fates for the packets to
//! come, and `clear` lets go of those that are left. `send` sends the next mark from A to B, from 1. `release` puts the held
//! ones on the way. `deliver` shows the mark that comes, or that none does. `down` and `up` set the word of the direction, and
//! `link` shows it.
//!
//! An empty line and one that begins with `#` is printed as it is.
#![tactic(auto)]

mod near;
mod packed;
mod pieces;
mod plan;
mod shown;
mod unpacked;
mod written;

use anyhow::Result;
use case_reader::{CaseStop, Words, read_call};
use near::near;
use packed::{carried, marked};
use rep_calls::Call;
use rep_lists::Copies;
use script_lex::lex;
use std::alloc::Global;
use unpacked::unpacked;

/// One call more behind those that are kept.
fn keep(alloc: Global, calls: &mut Vec<Call>, words: &mut Words) -> Result<(), CaseStop> {
    calls.push(read_call(alloc, words)?)?;
    Ok(())
}

/// The last call, once more.
fn repeat_once(alloc: Global, calls: &mut Vec<Call>) -> Result<(), CaseStop> {
    let Some(call) = calls.last() else {
        return Err(CaseStop::NoCase);
    };
    let call = call.copy(alloc)?;
    calls.push(call)?;
    Ok(())
}

/// The last call, so many times more.
fn repeat(alloc: Global, calls: &mut Vec<Call>, words: &mut Words) -> Result<(), CaseStop> {
    let count = words.whole()?;
    words.end()?;
    for _ in 0..count {
        repeat_once(alloc, calls)?;
    }
    Ok(())
}

/// What a line gives: None where it only keeps calls.
type Outcome = Result<Option<String>, CaseStop>;

/// The outcome of a line that was done and shows nothing.
fn silent(done: Result<(), CaseStop>) -> Outcome {
    done?;
    Ok(None)
}

/// The outcome of a line that shows something.
fn told(text: Result<String, CaseStop>) -> Outcome {
    Ok(Some(text?))
}

/// The outcome of a line of this kind with these words.
fn outcome_of_words(
    alloc: Global,
    calls: &mut Vec<Call>,
    kind: &str,
    words: &mut Words,
) -> Outcome {
    match kind {
        "call" => silent(keep(alloc, calls, words)),
        "again" => silent(repeat(alloc, calls, words)),
        "carry" => told(carried(alloc, words, calls)),
        "mark" => told(marked(alloc, words)),
        _ => Err(CaseStop::NoCase),
    }
}

/// The outcome of a line of this kind, whose rest is read as words.
fn outcome_of_line(alloc: Global, calls: &mut Vec<Call>, kind: &str, rest: &str) -> Outcome {
    let tokens = lex(alloc, rest.as_bytes())?;
    outcome_of_words(alloc, calls, kind, &mut Words::of(tokens.as_slice()))
}

fn outcome(alloc: Global, calls: &mut Vec<Call>, line: &str) -> Outcome {
    let Some((kind, rest)) = line.split_once(' ') else {
        return Err(CaseStop::NoCase);
    };
    match kind {
        "bytes" => told(unpacked(alloc, rest)),
        "near" => told(near(alloc, rest)),
        "plan" => told(plan::shown(alloc, rest)),
        _ => outcome_of_line(alloc, calls, kind, rest),
    }
}

fn echo(rt: &HostRuntime, line: &str) -> Result<()> {
    println!(rt; "{line}")?;
    Ok(())
}

fn tell(rt: &HostRuntime, outcome: Outcome) -> Result<()> {
    match outcome {
        Ok(Some(outcome)) => echo(rt, outcome.as_str()),
        Ok(None) => Ok(()),
        Err(CaseStop::NoCase) => echo(rt, "no case"),
        Err(CaseStop::Memory) => echo(rt, "no memory"),
    }
}

/// Prints the outcome of a line.
fn answer(rt: &HostRuntime, calls: &mut Vec<Call>, line: &str) -> Result<()> {
    if line.is_empty() || line.starts_with('#') {
        return echo(rt, line);
    }
    tell(rt, outcome(rt.alloc(), calls, line))
}

fn answer_all(rt: &HostRuntime, calls: &mut Vec<Call>) -> Result<()> {
    for line in rt.lines(rt.alloc()) {
        answer(rt, calls, &line?)?;
    }
    Ok(())
}

fn main(rt: HostRuntime) -> Result<()> {
    let mut calls = Vec::new(rt.alloc());
    answer_all(&rt, &mut calls)
}
