//! How a live part is run at a site: by a call that is passed in.
ghost use Rattle.std.specs.Prelude.{◌≤◌, length};
ghost use Rattle.world_run.specs.LiveParts.{most_sessions};
ghost use Rattle.world_run.specs.Streaming.{AnswersStreams, RunsStreams};

use live_laws::{LiveTurn, Session};
use live_streams::run_streams;
use page_tables::PageTables;
use rep_io::Watch;
use rep_lists::{Items, NoMemory};
use rep_values::SiteName;
use site_engine::Site;
use std::alloc::Global;
use std::sync::Wait;
use std::thread::Threads;

/// How the turns of a live part are made.
pub trait Streaming {
    /// What has to hold of what makes the turns.
    ghost able: { Self → Type 0 };

    /// The site behind a full run of turns, and these turns.
    fn run(
        &self,
        alloc: Global,
        site: Site<PageTables>,
        origins: Items<SiteName>,
        sessions: Items<Session>,
    ) -> Result<(Site<PageTables>, Items<LiveTurn>), NoMemory>
        requires able { able self.now }
        requires few { length sessions ≤ most_sessions }
        ensures { AnswersStreams origins sessions site result };
}

/// The turns are made by this call.
#[derive(Drop)]
pub struct Streams<F> {
    pub run: F,
}

impl<
    F: Fn(
        Global,
        Site<PageTables>,
        Items<SiteName>,
        Items<Session>,
    ) -> Result<(Site<PageTables>, Items<LiveTurn>), NoMemory>,
> Streaming for Streams<F> {
    ghost able = { λ streams. RunsStreams (F.pre streams.run) (F.post streams.run) };

    fn run(
        &self,
        alloc: Global,
        site: Site<PageTables>,
        origins: Items<SiteName>,
        sessions: Items<Session>,
    ) -> Result<(Site<PageTables>, Items<LiveTurn>), NoMemory>
        requires able { RunsStreams (F.pre self.now.run) (F.post self.now.run) }
        requires few { length sessions ≤ most_sessions }
        ensures { AnswersStreams origins sessions site result }
    {
        (self.run)(alloc, site, origins, sessions)
    }
}

/// Runs a live part by threads, one for each origin and each session.
pub fn streamed<X: Threads + Wait + Sync, W: Watch>(
    rt: &X,
    alloc: Global,
    site: Site<PageTables>,
    origins: &[SiteName],
    sessions: Items<Session>,
    watch: &W,
) -> Result<(Site<PageTables>, Items<LiveTurn>), NoMemory>
    requires { length sessions ≤ most_sessions }
    ensures { AnswersStreams origins.now sessions site result }
{
    match run_streams(rt, alloc, site, origins, sessions, watch) {
        Ok(live) => Ok((live.site, live.turns)),
        Err(_) => Err(NoMemory),
    }
}
