//! Errors, refusals and what was seen in words, as reports have them.

use case_reader::{CaseStop, push_name};
use rep_calls::PastEntry;
use rep_lists::NoMemory;
use rep_values::{ApplyError, Name, Refusal};
use report_text::{Lines, MOST_LINE, refused_line};
use std::alloc::Global;
use std::str;

/// What a line tells; None where it tells nothing.
pub type Told = Result<Option<String>, CaseStop>;

/// These words.
pub fn told(alloc: Global, words: &str) -> Told {
    Ok(Some(format!(in alloc; "{words}")?))
}

fn kind_of(error: &ApplyError) -> &'static str {
    match error {
        ApplyError::NoRow => " NoRow",
        ApplyError::DeleteConflict => " DeleteConflict",
        ApplyError::ValueRange => " ValueRange",
        ApplyError::UpdateConflict(_) => " UpdateConflict",
        ApplyError::UniqueConflict(_) => " UniqueConflict",
        ApplyError::CheckFailed(_) => " CheckFailed",
    }
}

/// The group, the constraint or the check of an error.
fn name_in(error: &ApplyError) -> Option<&Name> {
    match error {
        ApplyError::NoRow | ApplyError::DeleteConflict | ApplyError::ValueRange => None,
        ApplyError::UpdateConflict(name)
        | ApplyError::UniqueConflict(name)
        | ApplyError::CheckFailed(name) => Some(name),
    }
}

/// Why a call fails.
pub fn push_error(out: &mut String, error: &ApplyError) -> Result<(), NoMemory> {
    out.push_str(kind_of(error))?;
    match name_in(error) {
        Some(name) => push_name(out, name),
        None => Ok(()),
    }
}

/// A line behind those that are there.
fn push_line(out: &mut String, line: &str) -> Result<(), NoMemory> {
    if !out.is_empty() {
        out.push('\n')?;
    }
    out.push_str(line)?;
    Ok(())
}

/// The lines of a report without the last one's end.
pub fn text_of(alloc: Global, lines: &Lines) -> Result<String, NoMemory> {
    let mut out = String::new(alloc);
    for line in str::from_utf8(lines.bytes()).unwrap_or("?").lines() {
        push_line(&mut out, line)?;
    }
    Ok(out)
}

/// The line of what is refused, as reports have it: behind the number of the statement in its block, or 0.
pub fn refused(alloc: Global, statement: u32, refusal: &Refusal) -> Told {
    if let Refusal::Memory = refusal {
        return Err(CaseStop::Memory);
    }
    let mut lines = Lines::make(alloc);
    lines.reserve(MOST_LINE)?;
    refused_line(&mut lines, statement, refusal);
    Ok(Some(text_of(alloc, &lines)?))
}

fn push_origin(out: &mut String, alloc: Global, seen: &PastEntry) -> Result<(), NoMemory> {
    push_name(out, &seen.origin.0)?;
    out.push_str(&format!(in alloc; " {}", seen.number)?)?;
    Ok(())
}

/// Each master that was seen, and its number.
pub fn push_seen(out: &mut String, alloc: Global, past: &[PastEntry]) -> Result<(), NoMemory> {
    for seen in past {
        push_origin(out, alloc, seen)?;
    }
    Ok(())
}
