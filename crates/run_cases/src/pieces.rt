//! Scripts that are read and reports that are written in pieces, where a read or a write fails.

use crate::runs::Ended;
use rep_io::{FailingSink, FailingSource};
use std::alloc::{AllocError, Global};
use world_run::run_alone;

/// How many bytes a read gives and a write takes at most, and which read and which write fails, counted from 1, or 0 for none.
#[derive(Clone, Copy, Drop)]
pub struct Pieces {
    pub reads: u64,
    pub writes: u64,
    pub failing_read: u64,
    pub failing_write: u64,
}

fn source_of(alloc: Global, pieces: Pieces, script: &[u8]) -> Result<FailingSource, AllocError> {
    let script = script.to_vec(alloc)?;
    let failing = vec![in alloc; pieces.failing_read]?;
    Ok(FailingSource::make(script, failing, pieces.reads.max(1)))
}

fn sink_of(alloc: Global, pieces: Pieces) -> Result<FailingSink, AllocError> {
    let failing = vec![in alloc; pieces.failing_write]?;
    Ok(FailingSink::make(alloc, failing, pieces.writes.max(1)))
}

/// Runs a script in pieces, and tells how many reads and writes were asked for.
pub fn run_in_pieces(
    alloc: Global,
    pieces: Pieces,
    script: &[u8],
) -> Result<(Ended, String), AllocError> {
    let mut source = source_of(alloc, pieces, script)?;
    let mut sink = sink_of(alloc, pieces)?;
    let status = run_alone(alloc, &mut source, &mut sink).code();
    let report = sink.taken().to_vec(alloc)?;
    let (reads, writes) = (source.calls(), sink.calls());
    let calls = format!(in alloc; "{reads} reads, {writes} writes")?;
    Ok((Ended { status, report }, calls))
}
