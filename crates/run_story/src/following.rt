//! The sites of a script, as far as the script is followed, and what was told of their journals.
ghost use Rattle.std.specs.Prelude.{◌≡◌, [], ◌++◌, map, length, is_some, IfOk, OnOk};
ghost use Rattle.world_run.specs.Lent.{site_here};
ghost use Rattle.packet_fates.specs.declared.packet.Traffic.TheVariants.{Rows, Calls};
ghost use Rattle.run_story.specs.Lanes.{lanes_in};
ghost use Rattle.run_story.specs.Telling.{journal_of, new_span, since_at, lane_at, spans_at, spans_from};

use crate::happening::Span;
use crate::lane::{Lane, LaneKind};
use packet_fates::Traffic;
use rep_declare::Declare;
use rep_lists::NoMemory;
use rep_values::SiteName;
use std::alloc::Global;
use world_run::World;

/// Tells the entries of a journal that weren't told yet.
fn tell_new(
    entries: &mut Vec<Span>,
    lane: usize,
    traffic: Traffic,
    told: u64,
    length: u64,
) -> Result<(), NoMemory>
    ensures { OnOk result (entries.new.items ≡ entries.old.items ++ new_span lane traffic told length) }
{
    if told < length {
        entries.push(Span {
            lane,
            traffic,
            first: told,
            count: length - told,
        })?;
    }
    Ok(())
}

/// How many entries a site's journal has, 0 where the site isn't there.
pub fn rows_length(world: &World, site: &SiteName) -> u64
    ensures { result ≡ length (journal_of Rows site.now world.now) }
{
    match world.site(site) {
        Some(site) => site.journal_len(),
        None => 0,
    }
}

/// How many entries a site's journal of calls has, 0 where it has none.
pub fn calls_length(world: &World, site: &SiteName) -> u64
    ensures { result ≡ length (journal_of Calls site.now world.now) }
{
    match world.proc_site(site) {
        Some(site) => site.journal_len(),
        None => 0,
    }
}

/// The line from which on a site is there, where it was looked for in this line and before.
fn since(world: &World, lane: &Lane, number: u32) -> Option<u32>
    ensures { result ≡ since_at number (is_some (site_here lane.now.site world.now)) lane.now.since }
{
    match (lane.since, world.site(&lane.site)) {
        (Some(since), _) => Some(since),
        (None, Some(_)) => Some(number),
        (None, None) => None,
    }
}

/// The lane behind a line of this number, with what is told there.
fn lane_at(world: &World, number: u32, lane: &Lane) -> Lane
    ensures { result ≡ lane_at world.now number lane.now }
{
    Lane {
        site: lane.site,
        kind: lane.kind,
        since: since(world, lane, number),
        told: lane.told.max(rows_length(world, &lane.site)),
        told_calls: lane.told_calls.max(calls_length(world, &lane.site)),
    }
}

/// Tells what came to the journals of a lane's site since they were looked at.
fn look_at(
    world: &World,
    place: usize,
    lane: &Lane,
    entries: &mut Vec<Span>,
) -> Result<(), NoMemory>
    ensures { OnOk result (entries.new.items ≡ entries.old.items ++ spans_at world.now place lane.now) }
{
    let rows = rows_length(world, &lane.site);
    tell_new(entries, place, Traffic::Rows, lane.told, rows)?;
    let calls = calls_length(world, &lane.site);
    tell_new(entries, place, Traffic::Calls, lane.told_calls, calls)
}

/// What came to the journals of all sites since they were looked at.
pub fn entries_of(alloc: Global, world: &World, lanes: &[Lane]) -> Result<Vec<Span>, NoMemory>
    ensures { IfOk result (λ entries. entries.items ≡ spans_from world.now 0 lanes.now) }
{
    let mut entries = Vec::new(alloc);
    for place in 0..lanes.len() {
        look_at(world, place, &lanes[place], &mut entries)?;
    }
    Ok(entries)
}

/// The lanes behind a line of this number, with what is told there.
pub fn lanes_at(
    alloc: Global,
    world: &World,
    number: u32,
    lanes: &[Lane],
) -> Result<Vec<Lane>, NoMemory>
    ensures { IfOk result (λ after. after.items ≡ map (lane_at world.now number) lanes.now) }
{
    let mut after = Vec::new(alloc);
    for lane in lanes {
        after.push(lane_at(world, number, lane))?;
    }
    Ok(after)
}

/// A declaration was done: where it adds a site, that has a lane.
pub fn declare(lanes: &mut Vec<Lane>, declaration: &Declare) -> Result<(), NoMemory>
    ensures { OnOk result (lanes.new.items ≡ lanes.old.items ++ lanes_in declaration.now) }
{
    match declaration {
        Declare::Site { name } => lanes.push(Lane::of(*name, LaneKind::Master))?,
        Declare::LateSite { name } => lanes.push(Lane::of(*name, LaneKind::Late))?,
        Declare::SnapSite { name, master } => {
            lanes.push(Lane::of(*name, LaneKind::Snapshot(*master)))?;
        }
        Declare::Table { .. }
        | Declare::Group { .. }
        | Declare::Method { .. }
        | Declare::Priority { .. }
        | Declare::SiteLevel { .. }
        | Declare::Unique { .. }
        | Declare::UniqueMethod { .. }
        | Declare::Check { .. }
        | Declare::Convergent { .. } => {}
    }
    Ok(())
}

/// The lane of a site.
pub fn lane_of<'a>(lanes: &'a [Lane], site: &SiteName) -> Option<&'a Lane> {
    lanes.iter().find(|lane| lane.site.is_same(site))
}
