//! Scripts with a live part.

use crate::runs::Ended;
use rep_io::{BytesSink, BytesSource, Still};
use std::alloc::{AllocError, Global};
use std::sync::Wait;
use std::thread::Threads;
use world_run::run_live;

/// Runs a script with a live part from memory to memory.
pub fn run_streams<R: Threads + Wait + Sync>(
    rt: &R,
    alloc: Global,
    json: bool,
    script: &[u8],
) -> Result<Ended, AllocError> {
    let mut source = BytesSource::make(script.to_vec(alloc)?);
    let mut sink = BytesSink::make(alloc);
    let status = run_live(rt, alloc, json, &mut source, &mut sink, &Still).code();
    let report = sink.taken().to_vec(alloc)?;
    Ok(Ended { status, report })
}

fn push_line(text: &mut String, line: &str) -> Result<(), AllocError> {
    text.push_str(line)?;
    text.push_str("\n")?;
    Ok(())
}

/// A report in which the lines of turns stand by their bytes, behind what stands before them: it is the same in whatever order
/// the turns came, as far as they print the same.
pub fn in_any_order(alloc: Global, report: &str) -> Result<String, AllocError> {
    let mut turns: Vec<&str> = Vec::new(alloc);
    let mut before = String::new(alloc);
    let mut behind = String::new(alloc);
    for line in report.lines() {
        if line.starts_with("turn ") {
            turns.push(line)?;
        } else if turns.is_empty() {
            push_line(&mut before, line)?;
        } else {
            push_line(&mut behind, line)?;
        }
    }
    turns.sort_unstable();
    for turn in &turns {
        push_line(&mut before, turn)?;
    }
    before.push_str(behind.as_str())?;
    Ok(before)
}
