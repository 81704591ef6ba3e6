//! Marks, queues and dependency indexes as cases: each line is one call, and its outcome is printed.
//!
//! A position is a number, or `last` and how far it is below 2^64 - 1.
//!
//! Marks of one sender: `marks` begins anew; `finish POSITION`; `finished POSITION`; `ready POSITION DEP`; `orders` finishes
//! each sequence of five positions from 1 to 5 and compares the mark after each with one that is counted.
//!
//! The queue of a site: `queue SITE..` begins anew with these destinations; `push TABLE [, SITE DEP].. [past ORIGIN
//! NUMBER ..]` queues a transaction of one call on a table, which tells it apart, with what was seen before it; `entry
//! SITE POSITION`; `place SITE NUMBER`; `order PLACE`; `acknowledge SITE MARK`; `purge`.
//!
//! The index of a site: `index SITE..` begins anew; `note SITE TOKEN..`, a token being `row TABLE VALUE..` or `unique TABLE`;
//! `compare COUNT KEYS` notes so many transactions over so many keys, for two destinations each or one, and compares each
//! number with a scan of all earlier positions.
//!
//! Tokens: `schema` begins anew; `declare DECLARATION`; `call CALL` keeps a call; `tokens` are those of a transaction of
//! the calls that are kept, which are then forgotten; `lines` are how a report tells these calls, and forgets them too.
#![tactic(auto)]

mod indexes;
mod marks;
mod queues;
mod scan;
mod state;
mod tokens;
mod told;

use anyhow::Result;
use case_reader::{CaseStop, Words};
use script_lex::lex;
use state::State;
use std::alloc::Global;

/// The outcome of a line of this kind.
fn outcome_of(
    alloc: Global,
    state: &mut State,
    kind: &[u8],
    words: &mut Words,
) -> Result<Option<String>, CaseStop> {
    match kind {
        b"marks" | b"finish" | b"finished" | b"ready" | b"orders" => {
            marks::outcome(alloc, &mut state.finished, kind, words)
        }
        b"queue" | b"push" | b"entry" | b"place" | b"order" | b"acknowledge" | b"purge" => {
            queues::outcome(alloc, &mut state.queue, kind, words)
        }
        b"index" | b"note" | b"compare" => {
            indexes::outcome(alloc, &mut state.index, kind, words)
        }
        b"schema" | b"declare" | b"call" | b"tokens" | b"lines" => {
            tokens::outcome(alloc, &mut state.declared, kind, words)
        }
        _ => Err(CaseStop::NoCase),
    }
}

/// The outcome of a line; None where it tells nothing.
fn outcome(alloc: Global, state: &mut State, line: &str) -> Result<Option<String>, CaseStop> {
    let tokens = lex(alloc, line.as_bytes())?;
    let mut words = Words::of(tokens.as_slice());
    let kind = words.word()?;
    outcome_of(alloc, state, kind, &mut words)
}

fn echo(rt: &HostRuntime, line: &str) -> Result<()> {
    println!(rt; "{line}")?;
    Ok(())
}

fn tell(rt: &HostRuntime, outcome: Result<Option<String>, CaseStop>) -> Result<()> {
    match outcome {
        Ok(Some(outcome)) => echo(rt, outcome.as_str()),
        Ok(None) => Ok(()),
        Err(CaseStop::NoCase) => echo(rt, "no case"),
        Err(CaseStop::Memory) => echo(rt, "no memory"),
    }
}

/// Prints the outcome of a line.
fn answer(rt: &HostRuntime, state: &mut State, line: &str) -> Result<()> {
    if line.is_empty() || line.starts_with('#') {
        return echo(rt, line);
    }
    tell(rt, outcome(rt.alloc(), state, line))
}

fn answer_all(rt: &HostRuntime, state: &mut State) -> Result<()> {
    for line in rt.lines(rt.alloc()) {
        answer(rt, state, &line?)?;
    }
    Ok(())
}

fn main(rt: HostRuntime) -> Result<()> {
    match State::new(rt.alloc()) {
        Ok(mut state) => answer_all(&rt, &mut state),
        Err(_) => echo(&rt, "no memory"),
    }
}
