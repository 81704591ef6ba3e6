//! The end of a live part: what the other masters sent comes in, the turns are made, and the marks go back.
ghost use Rattle.std.specs.Prelude.{◌≡◌, ◌≤◌, None, length, IfOk};
ghost use Rattle.world_push.specs.Lending.{live_refusal};
ghost use Rattle.world_run.specs.LiveParts.{most_sessions, sessions_of, origins_of};
ghost use Rattle.world_run.specs.LiveAnswers.{RunsSessions};
ghost use Rattle.world_run.specs.Streaming.{AnswersStreams};
ghost use Rattle.run_story.specs.Running.{PartRan};

use crate::events::{Told, tell_coming, tell_going_back};
use crate::lane::Lane;
use crate::looking::{Before, before_rows};
use crate::part::{EndedPart, OpenPart};
use live_laws::{LiveTurn, Session};
use live_streams::run_streams;
use packet_fates::{Outlook, Roads};
use page_tables::PageTables;
use rep_io::Still;
use rep_lists::{Items, NoMemory};
use rep_schema::RowStore;
use rep_values::SiteName;
use schema_names::{is_master_site, senders_of};
use site_engine::Site;
use std::alloc::Global;
use std::snapshot::Snapshot;
use std::sync::Wait;
use std::thread::Threads;
use world_run::World;

/// The other masters, in declared order.
fn origins_of(
    alloc: Global,
    site: &Site<PageTables>,
    name: &SiteName,
) -> Result<Items<SiteName>, NoMemory>
    ensures { IfOk result (λ names. names ≡ origins_of name.now site.now) }
{
    let schema = site.store().schema();
    let senders = senders_of(alloc, schema, name)?;
    let mut names = Items::new(alloc);
    for sender in senders.as_slice() {
        if is_master_site(schema, sender) {
            names.push(*sender)?;
        }
    }
    Ok(names)
}

/// Whether a site is another master that is there, and the direction from it is up.
fn reaches(world: &World, roads: &Roads, from: &SiteName, to: &SiteName) -> bool {
    match world.site(from) {
        Some(site) => site.is_master() && !from.is_same(to) && roads.links.is_up(from, to),
        None => false,
    }
}

/// What is seen before a master is lent out, of each other master that reaches it.
fn before_part(
    alloc: Global,
    world: &World,
    lanes: &[Lane],
    roads: &Roads,
    to: &SiteName,
) -> Result<Vec<Outlook>, NoMemory> {
    let mut outlooks = Vec::new(alloc);
    for lane in lanes {
        if reaches(world, roads, &lane.site, to) {
            if let Before::Push(outlook) = before_rows(alloc, world, roads, &lane.site, to, None)? {
                outlooks.push(outlook)?;
            }
        }
    }
    Ok(outlooks)
}

/// Makes the turns at a site by threads, one for each origin and each session.
fn streamed<X: Threads + Wait + Sync>(
    rt: &X,
    alloc: Global,
    site: Site<PageTables>,
    origins: &[SiteName],
    sessions: Items<Session>,
) -> Result<(Site<PageTables>, Items<LiveTurn>), NoMemory>
    requires { length sessions ≤ most_sessions }
    ensures { AnswersStreams origins.now sessions site result }
{
    match run_streams(rt, alloc, site, origins, sessions, &Still) {
        Ok(live) => Ok((live.site, live.turns)),
        Err(_) => Err(NoMemory),
    }
}

/// Makes the turns of a part at a site that is lent out.
fn turns_at<X: Threads + Wait + Sync>(
    rt: &X,
    alloc: Global,
    site: Site<PageTables>,
    name: &SiteName,
    sessions: Items<Session>,
) -> Result<(Site<PageTables>, Items<LiveTurn>), NoMemory>
    requires { length sessions ≤ most_sessions }
    ensures { AnswersStreams (origins_of name.now site) sessions site result }
{
    let origins = origins_of(alloc, &site, name)?;
    streamed(rt, alloc, site, origins.as_slice(), sessions)
}

/// Runs the sessions of a part: what the other masters sent comes in, the turns are made, and the marks go back. It gives the turns.
fn run_sessions<X: Threads + Wait + Sync>(
    rt: &X,
    alloc: Global,
    world: &mut World,
    name: &SiteName,
    sessions: Items<Session>,
) -> Result<Items<LiveTurn>, NoMemory>
    requires free { world.old.lent ≡ None }
    requires passes { live_refusal name.now world.old.world ≡ None }
    requires few { length sessions ≤ most_sessions }
    ensures { IfOk result (λ turns. RunsSessions name.now sessions turns world.old.world world.new) }
{
    let site = world.live_open(alloc, name)?;
    let (site, turns) = turns_at(rt, alloc, site, name, sessions)?;
    world.live_close(alloc, site)?;
    Ok(turns)
}

/// Runs a part, and tells its turns.
fn run_open<X: Threads + Wait + Sync>(
    rt: &X,
    alloc: Global,
    world: &mut World,
    part: OpenPart,
    told: &mut Told,
) -> Result<EndedPart, NoMemory>
    requires free { world.old.lent ≡ None }
    requires passes { live_refusal part.site world.old.world ≡ None }
    requires few { length (sessions_of part) ≤ most_sessions }
    ensures { IfOk result (λ ended. PartRan world.old.world part world.new ended) }
{
    let before = Snapshot::of(world);
    let name = part.site();
    let sessions = part.into_sessions()?;
    let kept = Snapshot::of(&sessions);
    let turns = run_sessions(rt, alloc, world, &name, sessions)?;
    let ended = EndedPart {
        site: name,
        before,
        sessions: kept,
        turns: Snapshot::of(&turns),
    };
    told.turns = turns;
    Ok(ended)
}

/// Tells what came to a part, and what went back.
fn tell_part(
    alloc: Global,
    world: &World,
    roads: &mut Roads,
    outlooks: &mut Vec<Outlook>,
    told: &mut Told,
) -> Result<(), NoMemory> {
    for outlook in outlooks {
        tell_coming(alloc, roads, outlook, told)?;
        tell_going_back(alloc, world, roads, outlook, told)?;
    }
    Ok(())
}

/// Runs a part, and tells what came, the turns, and what went back.
pub fn run_part<X: Threads + Wait + Sync>(
    rt: &X,
    alloc: Global,
    world: &mut World,
    lanes: &[Lane],
    roads: &mut Roads,
    part: OpenPart,
    told: &mut Told,
) -> Result<EndedPart, NoMemory>
    requires free { world.old.lent ≡ None }
    requires passes { live_refusal part.site world.old.world ≡ None }
    requires few { length (sessions_of part) ≤ most_sessions }
    ensures { IfOk result (λ ended. PartRan world.old.world part world.new ended) }
{
    let mut outlooks = before_part(alloc, world, lanes, roads, &part.site())?;
    let ended = run_open(rt, alloc, world, part, told)?;
    tell_part(alloc, world, roads, &mut outlooks, told)?;
    Ok(ended)
}
