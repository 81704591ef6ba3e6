//! What sinks take, write by write. Strokes stand between the pieces.

use rep_io::{BytesSink, Failed, FailingSink, Sink, StdSink, offer};
use std::alloc::{AllocError, Global};

fn write_line(alloc: Global, taken: Result<usize, Failed>) -> Result<String, AllocError> {
    match taken {
        Ok(count) => format!(in alloc; "takes {count}"),
        Err(Failed) => format!(in alloc; "fails"),
    }
}

fn offer_line(alloc: Global, taken: Result<(), Failed>) -> Result<String, AllocError> {
    match taken {
        Ok(()) => format!(in alloc; "takes all"),
        Err(Failed) => format!(in alloc; "fails"),
    }
}

/// One write for each piece.
fn writes<K: Sink>(alloc: Global, sink: &mut K, pieces: &str) -> Result<Vec<String>, AllocError> {
    let mut told = Vec::new(alloc);
    for piece in pieces.split('/') {
        told.push(write_line(alloc, sink.write(piece.as_bytes()))?)?;
    }
    Ok(told)
}

/// As many writes for each piece as the sink wants.
fn offers<K: Sink>(alloc: Global, sink: &mut K, pieces: &str) -> Result<Vec<String>, AllocError> {
    let mut told = Vec::new(alloc);
    for piece in pieces.split('/') {
        told.push(offer_line(alloc, offer(sink, piece.as_bytes()))?)?;
    }
    Ok(told)
}

fn bytes_line(alloc: Global, bytes: &[u8]) -> Result<String, AllocError> {
    let text = String::from_utf8_lossy(alloc, bytes)?;
    format!(in alloc; "[{text}]")
}

/// The writes of a sink in memory, each with all that it took by then.
pub fn to_bytes(alloc: Global, pieces: &str) -> Result<Vec<String>, AllocError> {
    let mut sink = BytesSink::make(alloc);
    let mut told = Vec::new(alloc);
    for piece in pieces.split('/') {
        told.push(write_line(alloc, sink.write(piece.as_bytes()))?)?;
        told.push(bytes_line(alloc, sink.taken())?)?;
    }
    let faults = sink.faults();
    told.push(format!(in alloc; "{faults} failed")?)?;
    Ok(told)
}

/// The writes of a sink over a writer of std that has room for so many bytes.
pub fn to_writer(alloc: Global, room: u64, pieces: &str) -> Result<Vec<String>, AllocError> {
    let mut bytes = vec![in alloc; b'.'; room as usize]?;
    let mut sink = StdSink::make(bytes.as_mut_slice());
    let mut told = writes(alloc, &mut sink, pieces)?;
    drop(sink);
    told.push(bytes_line(alloc, &bytes)?)?;
    Ok(told)
}

/// The pieces are offered to it.
pub fn offered(alloc: Global, room: u64, pieces: &str) -> Result<Vec<String>, AllocError> {
    let mut bytes = vec![in alloc; b'.'; room as usize]?;
    let mut sink = StdSink::make(bytes.as_mut_slice());
    let mut told = offers(alloc, &mut sink, pieces)?;
    drop(sink);
    told.push(bytes_line(alloc, &bytes)?)?;
    Ok(told)
}

/// They are offered to a sink of which writes 3 and 5 fail and the others take so many bytes at most.
pub fn to_failing(alloc: Global, most: u64, pieces: &str) -> Result<Vec<String>, AllocError> {
    let failing = vec![in alloc; 3, 5]?;
    let mut sink = FailingSink::make(alloc, failing, most.max(1));
    let mut told = offers(alloc, &mut sink, pieces)?;
    told.push(bytes_line(alloc, sink.taken())?)?;
    let (calls, faults) = (sink.calls(), sink.faults());
    told.push(format!(in alloc; "{calls} writes, {faults} failed")?)?;
    Ok(told)
}
