//! Does what sites do, as often as a line of the input says, to be measured from outside.
//!
//! `packet update|insert COUNT` seals a packet and unseals it again; `notes ROWS COUNT` notes transactions of one row each
//! in an index of dependencies; `local ROWS COUNT` runs blocks of one update each on a table, and `applied ROWS COUNT`
//! applies transactions of one update each to it.
#![tactic(auto)]

mod applied;
mod applied_runs;
mod asked;
mod local;
mod local_runs;
mod notes;
mod packets;
mod round_trips;
mod sample;
mod stock;

use anyhow::{Context, Result};
use asked::text;
use std::alloc::Global;

/// What comes of what is asked under a name.
fn told_under(alloc: Global, name: &str, asked: &str) -> Result<String> {
    match name {
        "packet" => packets::told(alloc, asked),
        "notes" => notes::told(alloc, asked),
        "local" => local::told(alloc, asked),
        "applied" => applied::told(alloc, asked),
        _ => text(alloc, "nothing is measured under this name"),
    }
}

/// What comes of a line.
fn told(alloc: Global, line: &str) -> Result<String> {
    let (name, asked) = line
        .split_once(' ')
        .context("what is measured, and how often")?;
    told_under(alloc, name, asked)
}

/// Prints what comes of a line.
fn answer(rt: &HostRuntime, line: &str) -> Result<()> {
    let told = told(rt.alloc(), line)?;
    println!(rt; "{told}")?;
    Ok(())
}

fn main(rt: HostRuntime) -> Result<()> {
    for line in rt.lines(rt.alloc()) {
        answer(&rt, &line?)?;
    }
    Ok(())
}
