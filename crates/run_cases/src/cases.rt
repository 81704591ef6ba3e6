//! The scripts of the input, and what each prints.

use crate::crews::{Held, run_held};
use crate::cuts::cut_line;
use crate::live::{in_any_order, run_streams};
use crate::pieces::{Pieces, run_in_pieces};
use crate::runs::{Ended, run};
use std::alloc::{AllocError, Global};
use std::sync::Wait;
use std::thread::Threads;

/// How a script is run.
#[derive(Drop)]
enum Way {
    Alone,
    /// Cut behind each byte as well.
    Cut,
    /// In pieces, where a read or a write fails.
    Pieces(Pieces),
    /// By a crew.
    Crew(Held),
    /// With a live part.
    Live(Turns),
}

/// How the turns of a live part are printed.
#[derive(Clone, Copy, Drop)]
enum Turns {
    AsLines,
    AsJson,
    /// As lines, by their bytes.
    InAnyOrder,
}

/// A script of the input.
#[derive(Drop)]
pub struct Case {
    /// The line that names it.
    title: String,
    /// Its lines, each with its end.
    script: Vec<u8>,
}

/// The number and the line of `* COUNT LINE`.
fn repeated(line: &str) -> Option<(u64, &str)> {
    let (count, repeat) = line.strip_prefix("* ")?.split_once(' ')?;
    let count = count.parse::<u64>().ok()?;
    Some((count, repeat))
}

fn add_line(script: &mut Vec<u8>, line: &str) -> Result<(), AllocError> {
    script.extend_from_slice(line.as_bytes())?;
    script.push(b'\n')?;
    Ok(())
}

/// Adds the line, in which a number stands for `%` and the end of a line for `;`.
fn add_numbered(
    alloc: Global,
    script: &mut Vec<u8>,
    number: u64,
    repeat: &str,
) -> Result<(), AllocError> {
    let digits = format!(in alloc; "{number}")?;
    let line = repeat.replace(alloc, '%', digits.as_str())?;
    let lines = line.replace(alloc, ';', "\n")?;
    add_line(script, lines.as_str())
}

/// Adds so many lines, in which the number of each stands for `%`.
fn add_repeats(
    alloc: Global,
    script: &mut Vec<u8>,
    count: u64,
    repeat: &str,
) -> Result<(), AllocError> {
    for number in 1..=count {
        add_numbered(alloc, script, number, repeat)?;
    }
    Ok(())
}

fn begin_case(alloc: Global, cases: &mut Vec<Case>, line: &str) -> Result<(), AllocError> {
    let title = format!(in alloc; "{line}")?;
    let script = Vec::new(alloc);
    cases.push(Case { title, script })?;
    Ok(())
}

/// Takes in a line of the input. One that names no script stands in the script that was named last; before the first one
/// it is passed over.
pub fn take_line(alloc: Global, cases: &mut Vec<Case>, line: &str) -> Result<(), AllocError> {
    if line.starts_with("== ") {
        return begin_case(alloc, cases, line);
    }
    let Some(case) = cases.last_mut() else {
        return Ok(());
    };
    match repeated(line) {
        None => add_line(&mut case.script, line),
        Some((count, repeat)) => add_repeats(alloc, &mut case.script, count, repeat),
    }
}

/// `APPLIERS TURNS`, and ` from FIRST` where the first position isn't 1.
fn held_of(words: &str) -> Option<Held> {
    let (appliers, rest) = words.split_once(' ')?;
    let (turns, first) = rest.split_once(" from ").unwrap_or((rest, "1"));
    Some(Held {
        appliers: appliers.parse::<u32>().ok()?,
        turns: turns.parse::<u64>().ok()?,
        first: first.parse::<u64>().ok()?,
    })
}

/// The crew of `== crew APPLIERS TURNS`.
fn crew_of(title: &str) -> Option<Way> {
    let held = held_of(title.strip_prefix("== crew ")?)?;
    Some(Way::Crew(held))
}

/// Which call of a kind fails, by `KIND CALL fails`.
fn failing_call(words: &str, kind: &str) -> Option<u64> {
    let (call, _) = words.strip_prefix(kind)?.split_once(" fails")?;
    call.parse::<u64>().ok()
}

/// The pieces of `== reads of MOST, writes of MOST, read CALL fails`. It may be `write CALL fails`; with other words none fails.
fn pieces_of(title: &str) -> Option<Way> {
    let (reads, rest) = title
        .strip_prefix("== reads of ")?
        .split_once(", writes of ")?;
    let (writes, words) = rest.split_once(", ")?;
    Some(Way::Pieces(Pieces {
        reads: reads.parse::<u64>().ok()?,
        writes: writes.parse::<u64>().ok()?,
        failing_read: failing_call(words, "read ").unwrap_or(0),
        failing_write: failing_call(words, "write ").unwrap_or(0),
    }))
}

/// The turns of `== live: NAME`, `== live as JSON: NAME` and `== live in any order: NAME`.
fn live_of(title: &str) -> Option<Way> {
    let (how, _) = title.strip_prefix("== live")?.split_once(':')?;
    match how.as_bytes() {
        b"" => Some(Way::Live(Turns::AsLines)),
        b" as JSON" => Some(Way::Live(Turns::AsJson)),
        b" in any order" => Some(Way::Live(Turns::InAnyOrder)),
        _ => None,
    }
}

fn way_of(title: &str) -> Way {
    if title.starts_with("== cut ") {
        return Way::Cut;
    }
    let way = crew_of(title).or(pieces_of(title)).or(live_of(title));
    way.unwrap_or(Way::Alone)
}

/// The name of a case, the report of its script and the status.
fn told(alloc: Global, title: &str, ended: &Ended) -> Result<String, AllocError> {
    let report = String::from_utf8_lossy(alloc, &ended.report)?;
    let status = ended.status;
    format!(in alloc; "{title}\n{report}-- status {status}\n")
}

/// The same, and what is to be said of the run.
fn told_with(alloc: Global, title: &str, ended: &Ended, more: &str) -> Result<String, AllocError> {
    let front = told(alloc, title, ended)?;
    format!(in alloc; "{front}-- {more}\n")
}

fn told_alone(alloc: Global, case: &Case) -> Result<String, AllocError> {
    let ended = run(alloc, &case.script)?;
    told(alloc, case.title.as_str(), &ended)
}

fn told_cut(alloc: Global, case: &Case) -> Result<String, AllocError> {
    let whole = run(alloc, &case.script)?;
    let cuts = cut_line(alloc, &case.script, &whole.report)?;
    told_with(alloc, case.title.as_str(), &whole, cuts.as_str())
}

fn told_in_pieces(alloc: Global, pieces: Pieces, case: &Case) -> Result<String, AllocError> {
    let (ended, calls) = run_in_pieces(alloc, pieces, &case.script)?;
    told_with(alloc, case.title.as_str(), &ended, calls.as_str())
}

fn told_held<R: Threads + Wait + Sync>(
    rt: &R,
    alloc: Global,
    held: Held,
    case: &Case,
) -> Result<String, AllocError> {
    let title = case.title.as_str();
    match run_held(rt, alloc, held, &case.script)? {
        Some((ended, how)) => told_with(alloc, title, &ended, how),
        None => format!(in alloc; "{title}\n-- no crew\n"),
    }
}

fn told_live<R: Threads + Wait + Sync>(
    rt: &R,
    alloc: Global,
    turns: Turns,
    case: &Case,
) -> Result<String, AllocError> {
    let json = matches!(turns, Turns::AsJson);
    let ended = run_streams(rt, alloc, json, &case.script)?;
    let title = case.title.as_str();
    let text = told(alloc, title, &ended)?;
    match turns {
        Turns::InAnyOrder => in_any_order(alloc, text.as_str()),
        Turns::AsLines | Turns::AsJson => Ok(text),
    }
}

/// What a case prints: its name, what was written, the status, and what is to be said of its cuts, its pieces or its crew.
pub fn outcome<R: Threads + Wait + Sync>(
    rt: &R,
    alloc: Global,
    case: &Case,
) -> Result<String, AllocError> {
    match way_of(case.title.as_str()) {
        Way::Alone => told_alone(alloc, case),
        Way::Cut => told_cut(alloc, case),
        Way::Pieces(pieces) => told_in_pieces(alloc, pieces, case),
        Way::Crew(held) => told_held(rt, alloc, held, case),
        Way::Live(turns) => told_live(rt, alloc, turns, case),
    }
}
