//! What was seen, in words: `past ORIGIN NUMBER ..`, and no word where it is of no master.

use crate::{CaseStop, Words, push_name};
use rep_calls::PastEntry;
use rep_lists::{Items, NoMemory};
use std::alloc::Global;

/// The masters and their numbers, up to the end of the line.
fn read_masters(alloc: Global, words: &mut Words) -> Result<Items<PastEntry>, CaseStop> {
    let mut past = Vec::new(alloc);
    for _ in 0..u64::MAX {
        if words.is_done() {
            break;
        }
        let origin = words.site()?;
        let number = words.whole()?;
        past.push(PastEntry { origin, number })?;
    }
    Ok(Items::from_vec(past))
}

/// What was seen, up to the end of the line.
pub fn read_past(alloc: Global, words: &mut Words) -> Result<Items<PastEntry>, CaseStop> {
    if words.is_done() {
        return Ok(Items::new(alloc));
    }
    match words.word()? {
        b"past" => read_masters(alloc, words),
        _ => Err(CaseStop::NoCase),
    }
}

/// A space, and what was seen.
pub fn push_past(out: &mut String, alloc: Global, past: &[PastEntry]) -> Result<(), NoMemory> {
    if past.is_empty() {
        return Ok(());
    }
    out.push_str(" past")?;
    for seen in past {
        push_name(out, &seen.origin.0)?;
        out.push_str(&format!(in alloc; " {}", seen.number)?)?;
    }
    Ok(())
}
