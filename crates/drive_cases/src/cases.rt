//! The lines that a case prints.

use crate::runs::{Ended, Faults, is_whole, run, with_line_ends, with_strokes};
use crate::{reads, sinks, sources};
use std::alloc::{AllocError, Global};

/// The most calls of which each fails in turn.
pub const MOST_CALLS: u64 = 100;

fn ended_line(alloc: Global, what: &str, ended: &Ended) -> Result<String, AllocError> {
    let report = with_strokes(alloc, &ended.report)?;
    let status = ended.status;
    let code = status.code();
    format!(in alloc; "{what}: {status:?} {code} [{report}]")
}

/// Adds what is told of a run with these faults, and answers whether no fault ended it.
fn add_run(
    alloc: Global,
    told: &mut Vec<String>,
    what: &str,
    script: &[u8],
    faults: Faults,
) -> Result<bool, AllocError> {
    let ended = run(alloc, script, faults)?;
    told.push(ended_line(alloc, what, &ended)?)?;
    Ok(is_whole(ended.status))
}

/// `run SCRIPT`, in pieces of at most so many bytes.
fn whole_run(alloc: Global, most: u64, script: &[u8]) -> Result<Vec<String>, AllocError> {
    let mut told = Vec::new(alloc);
    add_run(alloc, &mut told, "run", script, Faults::none(most))?;
    Ok(told)
}

/// The same where a read fails.
fn add_faulty_read(
    alloc: Global,
    told: &mut Vec<String>,
    most: u64,
    read: u64,
    script: &[u8],
) -> Result<bool, AllocError> {
    let what = format!(in alloc; "read {read} fails")?;
    add_run(
        alloc,
        told,
        what.as_str(),
        script,
        Faults::of_read(most, read),
    )
}

/// Each read fails in turn, up to the first that isn't asked for.
fn faulty_reads(alloc: Global, most: u64, script: &[u8]) -> Result<Vec<String>, AllocError> {
    let mut told = Vec::new(alloc);
    for read in 1..=MOST_CALLS {
        if add_faulty_read(alloc, &mut told, most, read, script)? {
            break;
        }
    }
    Ok(told)
}

/// The same where a write fails.
fn add_faulty_write(
    alloc: Global,
    told: &mut Vec<String>,
    most: u64,
    write: u64,
    script: &[u8],
) -> Result<bool, AllocError> {
    let what = format!(in alloc; "write {write} fails")?;
    add_run(
        alloc,
        told,
        what.as_str(),
        script,
        Faults::of_write(most, write),
    )
}

/// Each write fails in turn, up to the first that isn't asked for.
fn faulty_writes(alloc: Global, most: u64, script: &[u8]) -> Result<Vec<String>, AllocError> {
    let mut told = Vec::new(alloc);
    for write in 1..=MOST_CALLS {
        if add_faulty_write(alloc, &mut told, most, write, script)? {
            break;
        }
    }
    Ok(told)
}

/// The same of a script that is cut.
fn add_cut(
    alloc: Global,
    told: &mut Vec<String>,
    most: u64,
    cut: &[u8],
) -> Result<bool, AllocError> {
    let count = cut.len();
    let what = format!(in alloc; "cut at {count}")?;
    add_run(alloc, told, what.as_str(), cut, Faults::none(most))
}

/// The script is cut behind each of its bytes.
fn cut_scripts(alloc: Global, most: u64, script: &[u8]) -> Result<Vec<String>, AllocError> {
    let mut told = Vec::new(alloc);
    for count in 0..script.len() {
        let (cut, _) = script.split_at(count);
        add_cut(alloc, &mut told, most, cut)?;
    }
    Ok(told)
}

/// The status, the length of the report, and its end.
fn end_line(alloc: Global, count: u64, ended: &Ended) -> Result<String, AllocError> {
    let status = ended.status;
    let size = ended.report.len();
    let (_, end) = ended.report.split_at(size.saturating_sub(20));
    let end = with_strokes(alloc, end)?;
    format!(in alloc; "bytes {count}: {status:?}, {size} bytes, at the end [{end}]")
}

/// So many equal bytes, of which the end of the report and its length are told.
fn equal_bytes(alloc: Global, count: u64, byte: u8) -> Result<Vec<String>, AllocError> {
    let script = vec![in alloc; byte; count as usize]?;
    let ended = run(alloc, &script, Faults::none(4_096))?;
    let told = end_line(alloc, count, &ended)?;
    Ok(vec![in alloc; told]?)
}

fn no_case(alloc: Global) -> Result<Vec<String>, AllocError> {
    Ok(vec![in alloc; format!(in alloc; "no case")?]?)
}

/// What a case of this kind prints, of a script.
fn told_of_script(
    alloc: Global,
    kind: &str,
    most: u64,
    script: &[u8],
) -> Result<Vec<String>, AllocError> {
    match kind {
        "run" => whole_run(alloc, most, script),
        "asked" => reads::asked(alloc, most, script),
        "reads" => faulty_reads(alloc, most, script),
        "counted-reads" => reads::counted(alloc, most, script),
        "noted-reads" => reads::noted(alloc, most, script),
        "writes" => faulty_writes(alloc, most, script),
        "cuts" => cut_scripts(alloc, most, script),
        "bytes" => equal_bytes(alloc, most, script.first().copied().unwrap_or(b' ')),
        _ => no_case(alloc),
    }
}

fn run_of_text(
    alloc: Global,
    kind: &str,
    most: u64,
    text: &str,
) -> Result<Vec<String>, AllocError> {
    let script = with_line_ends(alloc, text)?;
    told_of_script(alloc, kind, most, &script)
}

/// What a case of this kind prints.
fn told(alloc: Global, kind: &str, most: u64, text: &str) -> Result<Vec<String>, AllocError> {
    match kind {
        "source" => sources::of_bytes(alloc, most, text),
        "reader" => sources::of_reader(alloc, most, text),
        "failing-source" => sources::of_failing(alloc, most, text),
        "writer" => sinks::to_writer(alloc, most, text),
        "offers" => sinks::offered(alloc, most, text),
        "failing-sink" => sinks::to_failing(alloc, most, text),
        _ => run_of_text(alloc, kind, most, text),
    }
}

/// What a case prints: `run`, `asked`, `reads`, `counted-reads`, `noted-reads`, `writes` or `cuts`, the most bytes that a call
/// moves, and a script; `bytes`, their number, and the byte; `source`, `reader` or `failing-source`, the most bytes that a read
/// gives, and all bytes; `writer` or `offers`, the room, and pieces; `failing-sink`, the most bytes that a write takes, and
/// pieces; or `sink` and pieces.
pub fn outcomes(alloc: Global, line: &str) -> Result<Vec<String>, AllocError> {
    let (kind, rest) = line.split_once(' ').unwrap_or((line, ""));
    if kind == "sink" {
        return sinks::to_bytes(alloc, rest);
    }
    let (most, text) = rest.split_once(' ').unwrap_or((rest, ""));
    match most.parse::<u64>() {
        Ok(most) => told(alloc, kind, most, text),
        Err(_) => no_case(alloc),
    }
}
