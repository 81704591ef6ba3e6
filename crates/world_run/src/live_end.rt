//! The end of a live part.
ghost use Rattle.std.specs.Prelude.{◌≡◌, ◌≤◌, None, length, IfOk};
ghost use Rattle.world_push.specs.Lending.{live_refusal};
ghost use Rattle.world_run.specs.LiveParts.{most_sessions, sessions_of, origins_of};
ghost use Rattle.world_run.specs.LiveAnswers.{RunsSessions, IsRan};
ghost use Rattle.world_run.specs.Streaming.{AnswersStreams};

use crate::built_world::World;
use crate::live_part::{EndedPart, OpenPart};
use crate::streaming::Streaming;
use live_laws::{LiveTurn, Session};
use live_report::part_lines;
use page_tables::PageTables;
use rep_lists::{Items, NoMemory};
use rep_schema::RowStore;
use rep_values::SiteName;
use report_text::Lines;
use schema_names::{is_master_site, senders_of};
use site_engine::Site;
use std::alloc::Global;
use std::snapshot::Snapshot;

/// A live part that was run, and what its end prints.
#[derive(Drop)]
pub struct Ran {
    pub part: EndedPart,
    pub lines: Lines,
}

/// The other masters, in declared order.
fn origins_of(
    alloc: Global,
    site: &Site<PageTables>,
    name: &SiteName,
) -> Result<Items<SiteName>, NoMemory>
    ensures { IfOk result (λ names. names ≡ origins_of name.now site.now) }
{
    let schema = site.store().schema();
    let senders = senders_of(alloc, schema, name)?;
    let mut names = Items::new(alloc);
    for sender in senders.as_slice() {
        if is_master_site(schema, sender) {
            names.push(*sender)?;
        }
    }
    Ok(names)
}

/// Makes the turns of a part at a site that is lent out.
fn turns_at<S: Streaming>(
    alloc: Global,
    streaming: &S,
    site: Site<PageTables>,
    name: &SiteName,
    sessions: Items<Session>,
) -> Result<(Site<PageTables>, Items<LiveTurn>), NoMemory>
    requires able { S.able streaming.now }
    requires few { length sessions ≤ most_sessions }
    ensures { AnswersStreams (origins_of name.now site) sessions site result }
{
    let origins = origins_of(alloc, &site, name)?;
    streaming.run(alloc, site, origins, sessions)
}

/// Runs a part: what the other masters sent comes in, the turns are made, and the marks go back. It gives the turns.
fn run_sessions<S: Streaming>(
    world: &mut World,
    alloc: Global,
    streaming: &S,
    name: &SiteName,
    sessions: Items<Session>,
) -> Result<Items<LiveTurn>, NoMemory>
    requires able { S.able streaming.now }
    requires free { world.old.lent ≡ None }
    requires passes { live_refusal name.now world.old.world ≡ None }
    requires few { length sessions ≤ most_sessions }
    ensures { IfOk result (λ turns. RunsSessions name.now sessions turns world.old.world world.new) }
{
    let site = world.live_open(alloc, name)?;
    let (site, turns) = turns_at(alloc, streaming, site, name, sessions)?;
    world.live_close(alloc, site)?;
    Ok(turns)
}

/// Runs an open part, and gives what its end prints.
pub fn run_part<S: Streaming>(
    world: &mut World,
    alloc: Global,
    json: bool,
    streaming: &S,
    part: OpenPart,
) -> Result<Ran, NoMemory>
    requires able { S.able streaming.now }
    requires free { world.old.lent ≡ None }
    requires passes { live_refusal part.site world.old.world ≡ None }
    requires few { length (sessions_of part) ≤ most_sessions }
    ensures { IfOk result (λ ran. IsRan json world.old.world part world.new ran.part ran.lines.bytes) }
{
    let before = Snapshot::of(world);
    let name = part.site;
    let sessions = part.into_sessions()?;
    let kept = Snapshot::of(&sessions);
    let turns = run_sessions(world, alloc, streaming, &name, sessions)?;
    let lines = part_lines(alloc, json, &name, turns.as_slice())?;
    let part = EndedPart {
        site: name,
        before,
        sessions: kept,
        turns: Snapshot::of(&turns),
    };
    Ok(Ran { part, lines })
}
