//! What is told of a line that was done.

use crate::happening::Event;
use crate::looking::{Before, Renewal, written_at};
use crate::refreshing::{all_rows, snapshot_rows};
use live_laws::LiveTurn;
use packet_fates::{Outlook, Packet, Push, Roads, Station, Traffic, tell_answer, tell_sent};
use rep_lists::{Items, NoMemory};
use rep_values::SiteName;
use script_parse::Command;
use std::alloc::Global;
use world_run::World;

/// What was told of a line so far, beside entries of journals.
#[derive(Drop)]
pub struct Told {
    pub sent: Vec<Packet>,
    pub answered: Vec<Packet>,
    pub event: Option<Event>,
    pub turns: Items<LiveTurn>,
}

impl Told {
    /// Nothing was told. It takes no memory.
    pub fn new(alloc: Global) -> Told {
        Told {
            sent: Vec::new(alloc),
            answered: Vec::new(alloc),
            event: None,
            turns: Items::new(alloc),
        }
    }
}

/// The low-water mark that goes back behind a push.
fn low_of(world: &World, push: &Push) -> u64 {
    match push.traffic {
        Traffic::Rows => match world.site(&push.to) {
            Some(site) => site.low(&push.from),
            None => 0,
        },
        Traffic::Calls => match world.proc_site(&push.to) {
            Some(site) => site.low(&push.from),
            None => 0,
        },
    }
}

/// Tells what came to the receiver of a push.
pub fn tell_coming(
    alloc: Global,
    roads: &mut Roads,
    outlook: &mut Outlook,
    told: &mut Told,
) -> Result<(), NoMemory> {
    match outlook.push.traffic {
        Traffic::Rows => tell_sent(alloc, &mut roads.rows, outlook, &mut told.sent),
        Traffic::Calls => tell_sent(alloc, &mut roads.calls, outlook, &mut told.sent),
    }
}

/// Tells what went back behind a push.
pub fn tell_going_back(
    alloc: Global,
    world: &World,
    roads: &mut Roads,
    outlook: &mut Outlook,
    told: &mut Told,
) -> Result<(), NoMemory> {
    let low = low_of(world, &outlook.push);
    let is_up = roads.links.is_up(&outlook.push.to, &outlook.push.from);
    match outlook.push.traffic {
        Traffic::Rows => {
            tell_answer(
                alloc,
                &mut roads.rows,
                is_up,
                outlook,
                low,
                &mut told.answered,
            )
        }
        Traffic::Calls => {
            tell_answer(
                alloc,
                &mut roads.calls,
                is_up,
                outlook,
                low,
                &mut told.answered,
            )
        }
    }
}

/// Tells a push that was done.
fn tell_push(
    alloc: Global,
    world: &World,
    roads: &mut Roads,
    outlook: Outlook,
    told: &mut Told,
) -> Result<(), NoMemory> {
    let mut outlook = outlook;
    tell_coming(alloc, roads, &mut outlook, told)?;
    tell_going_back(alloc, world, roads, &mut outlook, told)
}

/// What is told of a refresh that was done.
fn refreshed(world: &World, site: &SiteName, renewal: &Renewal) -> Event {
    let rows = match world.site(site) {
        Some(site) => snapshot_rows(site),
        None => 0,
    };
    Event::Refreshed {
        site: *site,
        master: renewal.master,
        keys: renewal.keys,
        rows,
    }
}

/// What is told of a join that was done.
fn joined(world: &World, site: &SiteName, source: &SiteName) -> Event {
    let rows = match world.site(site) {
        Some(site) => all_rows(site),
        None => 0,
    };
    Event::Joined {
        site: *site,
        source: *source,
        rows,
    }
}

/// What is told of a block that was closed: something only where no entry came of it.
fn closed(world: &World, site: &SiteName, written: u64) -> Option<Event> {
    if written_at(world, site) == written {
        Some(Event::Nothing { site: *site })
    } else {
        None
    }
}

/// What is told of a command that was done.
fn event_of(world: &World, command: &Command) -> Option<Event> {
    match command {
        Command::Link { from, to, link } => Some(Event::Linked {
            from: *from,
            to: *to,
            link: *link,
        }),
        Command::Join { site, source } => Some(joined(world, site, source)),
        _ => None,
    }
}

/// What is told of a refresh, if the command is one.
fn renewed(world: &World, command: &Command, renewal: &Renewal) -> Option<Event> {
    match command {
        Command::Refresh { site, .. } => Some(refreshed(world, site, renewal)),
        _ => None,
    }
}

/// Tells what a line did, beside what came to journals.
pub fn tell(
    alloc: Global,
    world: &World,
    roads: &mut Roads,
    command: &Command,
    before: Before,
    told: &mut Told,
) -> Result<(), NoMemory> {
    match before {
        Before::Push(outlook) => tell_push(alloc, world, roads, outlook, told)?,
        Before::Refresh(renewal) => told.event = renewed(world, command, &renewal),
        Before::Block { site, written } => told.event = closed(world, &site, written),
        Before::Nothing => told.event = event_of(world, command),
    }
    Ok(())
}
