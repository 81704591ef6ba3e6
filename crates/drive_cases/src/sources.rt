//! What sources give, read by read.

use rep_io::{BytesSource, Failed, FailingSource, Source, StdSource};
use std::alloc::{AllocError, Global};

/// The most reads of a source.
const MOST_READS: u64 = 100;

fn read_line(
    alloc: Global,
    given: Result<usize, Failed>,
    piece: &[u8],
) -> Result<String, AllocError> {
    let piece = String::from_utf8_lossy(alloc, piece)?;
    match given {
        Ok(count) => format!(in alloc; "gives {count} [{piece}]"),
        Err(Failed) => format!(in alloc; "fails [{piece}]"),
    }
}

/// Reads into one piece, of so many dots at first, until nothing comes, and tells each read with the piece behind it.
fn reads<S: Source>(alloc: Global, source: &mut S, room: u64) -> Result<Vec<String>, AllocError> {
    let mut piece = vec![in alloc; b'.'; room as usize]?;
    let mut told = Vec::new(alloc);
    for _ in 0..MOST_READS {
        let given = source.read(&mut piece);
        told.push(read_line(alloc, given, &piece)?)?;
        if given == Ok(0) {
            break;
        }
    }
    Ok(told)
}

/// The reads of a source in memory.
pub fn of_bytes(alloc: Global, most: u64, text: &str) -> Result<Vec<String>, AllocError> {
    let mut source = BytesSource::make(text.as_bytes().to_vec(alloc)?);
    reads(alloc, &mut source, most)
}

/// Those of a source over a reader of std.
pub fn of_reader(alloc: Global, most: u64, text: &str) -> Result<Vec<String>, AllocError> {
    let mut source = StdSource::make(text.as_bytes());
    reads(alloc, &mut source, most)
}

/// Those of a source of which reads 2 and 3 fail and the others give so many bytes at most, into a piece that has room for
/// three more.
pub fn of_failing(alloc: Global, most: u64, text: &str) -> Result<Vec<String>, AllocError> {
    let bytes = text.as_bytes().to_vec(alloc)?;
    let failing = vec![in alloc; 2, 3]?;
    let mut source = FailingSource::make(bytes, failing, most.max(1));
    let mut told = reads(alloc, &mut source, most.saturating_add(3))?;
    let (calls, faults) = (source.calls(), source.faults());
    told.push(format!(in alloc; "{calls} reads, {faults} failed")?)?;
    Ok(told)
}
