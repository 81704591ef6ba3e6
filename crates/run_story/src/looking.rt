//! What is seen of a world before a line is run.

use crate::following::{calls_length, lane_of, rows_length};
use crate::lane::{Lane, LaneKind};
use crate::refreshing::keys_of_refresh;
use packet_fates::{Outlook, Push, Roads, Station, Traffic, Ways, look_ahead};
use rep_lists::NoMemory;
use rep_values::SiteName;
use script_parse::{Command, ProcLine, Refresh};
use std::alloc::Global;
use world_run::World;

/// A refresh before it is done: the master, and how many keys are looked up, where it goes by the logs.
#[derive(Clone, Copy)]
pub struct Renewal {
    pub master: SiteName,
    pub keys: Option<u64>,
}

/// What was seen before a line was run.
#[derive(Drop)]
pub enum Before {
    Nothing,
    Push(Outlook),
    Refresh(Renewal),
    /// A block is to be closed at a site whose journals have so many entries.
    Block { site: SiteName, written: u64 },
}

/// How many entries both journals of a site have.
pub fn written_at(world: &World, site: &SiteName) -> u64 {
    rows_length(world, site).saturating_add(calls_length(world, site))
}

/// What there is to be seen before a push, where both sites are there.
fn before_push<S: Station>(
    alloc: Global,
    push: Push,
    ways: &Ways,
    sender: Option<&S>,
    receiver: Option<&S>,
) -> Result<Before, NoMemory> {
    match (sender, receiver) {
        (Some(sender), Some(receiver)) => {
            let outlook = look_ahead(alloc, push, ways, sender, receiver)?;
            Ok(Before::Push(outlook))
        }
        _ => Ok(Before::Nothing),
    }
}

/// What is seen before rows are pushed.
pub fn before_rows(
    alloc: Global,
    world: &World,
    roads: &Roads,
    from: &SiteName,
    to: &SiteName,
    count: Option<u64>,
) -> Result<Before, NoMemory> {
    let push = Push {
        traffic: Traffic::Rows,
        from: *from,
        to: *to,
        count,
    };
    before_push(alloc, push, &roads.rows, world.site(from), world.site(to))
}

/// What is seen before calls are pushed.
fn before_calls(
    alloc: Global,
    world: &World,
    roads: &Roads,
    from: &SiteName,
    to: &SiteName,
) -> Result<Before, NoMemory> {
    let push = Push {
        traffic: Traffic::Calls,
        from: *from,
        to: *to,
        count: None,
    };
    let sender = world.proc_site(from);
    let receiver = world.proc_site(to);
    before_push(alloc, push, &roads.calls, sender, receiver)
}

/// What is seen before a refresh.
fn before_refresh(
    alloc: Global,
    world: &World,
    lanes: &[Lane],
    name: &SiteName,
    how: Refresh,
) -> Result<Before, NoMemory> {
    let Some(lane) = lane_of(lanes, name) else {
        return Ok(Before::Nothing);
    };
    let LaneKind::Snapshot(master) = lane.kind else {
        return Ok(Before::Nothing);
    };
    match (world.site(name), world.site(&master)) {
        (Some(site), Some(there)) => {
            let keys = keys_of_refresh(alloc, how, there.notes(), site.notes())?;
            Ok(Before::Refresh(Renewal { master, keys }))
        }
        _ => Ok(Before::Nothing),
    }
}

/// What is seen before a block is closed.
fn before_end(world: &World, roads: &Roads) -> Before {
    match roads.block {
        Some(site) => Before::Block {
            site,
            written: written_at(world, &site),
        },
        None => Before::Nothing,
    }
}

/// What is seen before a line is run.
pub fn seen_before(
    alloc: Global,
    world: &World,
    lanes: &[Lane],
    roads: &Roads,
    command: &Command,
) -> Result<Before, NoMemory> {
    match command {
        Command::Push { from, to, count } => before_rows(alloc, world, roads, from, to, *count),
        Command::Procedures(ProcLine::Push { from, to }) => {
            before_calls(alloc, world, roads, from, to)
        }
        Command::Refresh { site, how } => before_refresh(alloc, world, lanes, site, *how),
        Command::Commit | Command::Procedures(ProcLine::Send { .. }) => {
            Ok(before_end(world, roads))
        }
        _ => Ok(Before::Nothing),
    }
}
