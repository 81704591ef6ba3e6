//! Scripts that a crew runs, whose appliers are held until two of them work side by side.

use crate::meeting::Meeting;
use crate::runs::Ended;
use rep_io::{BytesSink, BytesSource};
use std::alloc::{AllocError, Global};
use std::sync::Wait;
use std::thread::Threads;
use world_run::run_crew;

/// The appliers of a crew, none of which is held for more than so many turns, and the first of the three positions of which the
/// later two are held.
#[derive(Clone, Copy, Drop)]
pub struct Held {
    pub appliers: u32,
    pub turns: u64,
    pub first: u64,
}

/// Runs a script by a crew, and tells whether two of its appliers worked side by side; None where there is no such crew.
pub fn run_held<R: Threads + Wait + Sync>(
    rt: &R,
    alloc: Global,
    held: Held,
    script: &[u8],
) -> Result<Option<(Ended, &'static str)>, AllocError> {
    let Held {
        appliers,
        turns,
        first,
    } = held;
    if appliers < 1 || appliers > 8 {
        return Ok(None);
    }
    let mut source = BytesSource::make(script.to_vec(alloc)?);
    let mut sink = BytesSink::make(alloc);
    let meeting = Meeting::new(turns, first);
    let status = run_crew(rt, alloc, appliers, &mut source, &mut sink, &meeting).code();
    let report = sink.taken().to_vec(alloc)?;
    let how = if meeting.took_place() {
        "side by side"
    } else {
        "one after another"
    };
    Ok(Some((Ended { status, report }, how)))
}
