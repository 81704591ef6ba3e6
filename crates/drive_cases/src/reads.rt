//! What a run asks of its source, read by read.

use crate::cases::MOST_CALLS;
use crate::noting::Note;
use crate::runs::{Ended, Faults, Noted, is_whole, left_by, noted_run, run, with_strokes};
use std::alloc::{AllocError, Global};

fn read_line(alloc: Global, note: &Note) -> Result<String, AllocError> {
    let written = with_strokes(alloc, &note.written)?;
    if note.failed {
        return format!(in alloc; "read behind [{written}] fails");
    }
    format!(in alloc; "read behind [{written}]")
}

/// Adds what had been written at each read.
fn add_notes(alloc: Global, told: &mut Vec<String>, notes: &[Note]) -> Result<(), AllocError> {
    for note in notes {
        told.push(read_line(alloc, note)?)?;
    }
    Ok(())
}

/// What had been written at each read.
pub fn asked(alloc: Global, most: u64, script: &[u8]) -> Result<Vec<String>, AllocError> {
    let noted = noted_run(alloc, script, Faults::none(most))?;
    let mut told = Vec::new(alloc);
    add_notes(alloc, &mut told, &noted.reader.notes)?;
    Ok(told)
}

/// How a run ended, and what its source has left.
fn noted_line(alloc: Global, read: u64, noted: &mut Noted) -> Result<String, AllocError> {
    let left = left_by(alloc, &mut noted.source)?;
    let left = with_strokes(alloc, &left)?;
    let status = noted.status;
    format!(in alloc; "read {read} fails: {status:?}, left [{left}]")
}

/// Adds what is noted where a read fails, and answers whether no fault ended the run.
fn add_noted(
    alloc: Global,
    told: &mut Vec<String>,
    most: u64,
    read: u64,
    script: &[u8],
) -> Result<bool, AllocError> {
    let mut noted = noted_run(alloc, script, Faults::of_read(most, read))?;
    told.push(noted_line(alloc, read, &mut noted)?)?;
    add_notes(alloc, told, &noted.reader.notes)?;
    Ok(is_whole(noted.status))
}

/// Each read fails in turn, up to the first that isn't asked for: the reads that a reader noted.
pub fn noted(alloc: Global, most: u64, script: &[u8]) -> Result<Vec<String>, AllocError> {
    let mut told = Vec::new(alloc);
    for read in 1..=MOST_CALLS {
        if add_noted(alloc, &mut told, most, read, script)? {
            break;
        }
    }
    Ok(told)
}

/// How a run ended, how many reads its source counted, and what it has left.
fn counted_line(alloc: Global, read: u64, ended: &mut Ended) -> Result<String, AllocError> {
    let (calls, faults) = (ended.source.calls(), ended.source.faults());
    let left = left_by(alloc, &mut ended.source)?;
    let left = with_strokes(alloc, &left)?;
    let status = ended.status;
    format!(in alloc;
        "read {read} fails: {status:?}, {calls} asked, {faults} failed, left [{left}]"
    )
}

/// Adds what a source counted of which a read fails, and answers whether no fault ended the run.
fn add_counted(
    alloc: Global,
    told: &mut Vec<String>,
    most: u64,
    read: u64,
    script: &[u8],
) -> Result<bool, AllocError> {
    let mut ended = run(alloc, script, Faults::of_read(most, read))?;
    told.push(counted_line(alloc, read, &mut ended)?)?;
    Ok(is_whole(ended.status))
}

/// Each read fails in turn, up to the first that isn't asked for: the reads that the source counted.
pub fn counted(alloc: Global, most: u64, script: &[u8]) -> Result<Vec<String>, AllocError> {
    let mut told = Vec::new(alloc);
    for read in 1..=MOST_CALLS {
        if add_counted(alloc, &mut told, most, read, script)? {
            break;
        }
    }
    Ok(told)
}
