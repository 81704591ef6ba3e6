//! What lines tell.

use case_reader::CaseStop;
use rep_lists::NoMemory;
use rep_values::Refusal;
use report_text::{Lines, MOST_LINE, refused_line};
use std::alloc::Global;
use std::str;

/// What a line tells; None where it tells nothing.
pub type Told = Result<Option<String>, CaseStop>;

/// These words.
pub fn told(alloc: Global, words: &str) -> Told {
    Ok(Some(format!(in alloc; "{words}")?))
}

/// A line behind those that are there.
fn push_line(out: &mut String, line: &str) -> Result<(), NoMemory> {
    if !out.is_empty() {
        out.push('\n')?;
    }
    out.push_str(line)?;
    Ok(())
}

/// The lines of a report without the last one's end.
pub fn text_of(alloc: Global, lines: &Lines) -> Result<String, NoMemory> {
    let mut out = String::new(alloc);
    for line in str::from_utf8(lines.bytes()).unwrap_or("?").lines() {
        push_line(&mut out, line)?;
    }
    Ok(out)
}

/// The line of what is refused, as reports have it, behind 0.
pub fn refused(alloc: Global, refusal: &Refusal) -> Told {
    if let Refusal::Memory = refusal {
        return Err(CaseStop::Memory);
    }
    let mut lines = Lines::make(alloc);
    lines.reserve(MOST_LINE)?;
    refused_line(&mut lines, 0, refusal);
    Ok(Some(text_of(alloc, &lines)?))
}
