//! A live part from its opening to its end.
ghost use Rattle.std.specs.Prelude.{◌≡◌, ◌≤◌, length, IfOk, IfErr};
ghost use Rattle.live_laws.specs.Turns.{site_after, IsFullRun};
ghost use Rattle.site_gate.specs.Passes.{IsPassOf};
ghost use Rattle.live_streams.specs.Crews.{IsSamePart, IsPartlyRun};

use crate::crew::LiveCrew;
use crate::live::Live;
use crate::rounds::apply_until_quiet;
use crate::shared::SharedCrew;
use crate::threads::{Job, jobs_at, make_turns, works_of};
use live_laws::Session;
use rep_io::Watch;
use rep_lists::{Items, NoMemory};
use rep_schema::RowStore;
use rep_values::SiteName;
use site_engine::Site;
use site_gate::{Pass, SiteGate};
use std::alloc::Global;
use std::sync::Wait;
use std::thread;
use std::thread::Threads;

/// Threads make the turns of a live part, one thread those of a session or an origin. What they leave, for want of memory or
/// since an origin's thread found nothing ready any more, isn't made here.
fn made_together<R: RowStore, X: Threads + Wait + Sync, W: Watch>(
    rt: &X,
    alloc: Global,
    crew: LiveCrew<R>,
    watch: &W,
) -> LiveCrew<R>
    ensures { IsSamePart crew result }
{
    let Ok(works) = works_of(alloc, &crew) else {
        return crew;
    };
    let (gate, mut pass) = match SiteGate::make(alloc, SharedCrew::new(crew)) {
        Ok(made) => made,
        Err((SharedCrew { crew, .. }, _)) => return crew,
    };
    let jobs = jobs_at(alloc, &gate, &mut pass, works.as_slice());
    let shared = &gate;
    let make = |job: Job<R>| -> Pass<SharedCrew<R>>
        requires { IsPassOf shared.now job.pass }
    { make_turns(rt, alloc, shared, watch, job) };
    let passes = thread::map_vec(rt, jobs, &make);
    drop(passes);
    let SharedCrew { crew, .. } = gate.close(rt, pass);
    crew
}

/// Ends a live part: what is still ready of the origins is applied, and each block of each session has to have had its turn.
fn ended<R: RowStore>(crew: LiveCrew<R>, alloc: Global) -> Result<Live<R>, (Site<R>, NoMemory)>
    ensures full { IfOk result (λ live. IsFullRun crew.origins crew.sessions live.turns crew.opened) }
    ensures site { IfOk result (λ live. live.site ≡ site_after crew.sessions live.turns crew.opened) }
    ensures err { IfErr result (λ stopped. IsPartlyRun crew.origins crew.sessions crew.opened stopped.0) }
{
    let mut crew = crew;
    let settled = apply_until_quiet(&mut crew, alloc);
    let had_each_block = crew.had_each_block();
    let live = crew.into_live();
    let Ok(()) = settled else {
        return Err((live.site, NoMemory));
    };
    if !had_each_block {
        return Err((live.site, NoMemory));
    }
    Ok(live)
}

/// Runs a live part at a site, whose pass was begun and to which what the origins sent was brought: each block of each session
/// is committed, those of one session in their order, and what is ready of the origins is applied. It answers the turns in
/// the order in which they were made, and the site behind them. Where there is no memory, the site is that behind some of
/// these turns, each made once.
///
/// A thread of its own makes the turns of each session and each origin, where it can be started. Before each block of a session
/// `watch` is told of that session and block, both from 1, by the session's thread, which holds no lock then.
pub fn run_streams<R: RowStore, X: Threads + Wait + Sync, W: Watch>(
    rt: &X,
    alloc: Global,
    site: Site<R>,
    origins: &[SiteName],
    sessions: Items<Session>,
    watch: &W,
) -> Result<Live<R>, (Site<R>, NoMemory)>
    requires { length sessions ≤ 8 }
    ensures full { IfOk result (λ live. IsFullRun origins.now sessions live.turns site) }
    ensures site { IfOk result (λ live. live.site ≡ site_after sessions live.turns site) }
    ensures err { IfErr result (λ stopped. IsPartlyRun origins.now sessions site stopped.0) }
{
    let crew = match LiveCrew::make(alloc, site, origins, sessions) {
        Ok(crew) => crew,
        Err(site) => return Err((site, NoMemory)),
    };
    let crew = made_together(rt, alloc, crew, watch);
    ended(crew, alloc)
}
