//! Outcomes as words.

use case_reader::CaseStop;
use std::alloc::Global;

/// These words as an outcome.
pub fn text(alloc: Global, words: &str) -> Result<String, CaseStop> {
    let mut out = String::new(alloc);
    out.push_str(words)?;
    Ok(out)
}

/// Whether something holds.
pub fn yes_or_no(alloc: Global, holds: bool) -> Result<String, CaseStop> {
    text(alloc, if holds { "yes" } else { "no" })
}
