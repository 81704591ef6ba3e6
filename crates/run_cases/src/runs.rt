//! Runs of a script.

use rep_io::{BytesSink, BytesSource};
use std::alloc::{AllocError, Global};
use world_run::run_alone;

/// How a run ended, and what was written.
#[derive(Drop)]
pub struct Ended {
    pub status: u8,
    pub report: Vec<u8>,
}

/// Runs a script from memory to memory.
pub fn run(alloc: Global, script: &[u8]) -> Result<Ended, AllocError> {
    let mut source = BytesSource::make(script.to_vec(alloc)?);
    let mut sink = BytesSink::make(alloc);
    let status = run_alone(alloc, &mut source, &mut sink).code();
    let report = sink.taken().to_vec(alloc)?;
    Ok(Ended { status, report })
}
