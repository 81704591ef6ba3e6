//! The threads of a live part: one makes the turns of an origin, another those of a session.
ghost use Rattle.std.specs.Prelude.{◌≡◌};
ghost use Rattle.std.specs.List.{All};
ghost use Rattle.site_gate.specs.Passes.{IsPassOf, opening_of};

use crate::crew::{LiveCrew, MOST_SESSIONS};
use crate::shared::SharedCrew;
use rep_io::Watch;
use rep_lists::NoMemory;
use rep_schema::RowStore;
use site_gate::{Pass, SiteGate, Turns};
use std::alloc::Global;
use std::sync::Wait;

/// The blocks of a session.
#[derive(Clone, Copy)]
pub struct Blocks {
    /// The place of the session, from 0.
    pub place: usize,
    /// The session, from 1.
    pub session: u32,
    /// How many blocks it has.
    pub count: u64,
}

/// Whose turns a thread makes.
#[derive(Clone, Copy)]
pub enum Work {
    /// Those of the origin at a place.
    Origin(usize),
    /// Those of a session.
    Session(Blocks),
}

/// What a thread is given: whose turns it makes, and a pass to the gate.
#[derive(Drop)]
pub struct Job<R: RowStore>
where
    SharedCrew<R>: Turns,
{
    pub work: Work,
    pub pass: Pass<SharedCrew<R>>,
}

/// The work of a live part: that of each session that has blocks, and that of each origin.
pub(crate) fn works_of<R: RowStore>(
    alloc: Global,
    crew: &LiveCrew<R>,
) -> Result<Vec<Work>, NoMemory> {
    let mut works = Vec::new(alloc);
    for place in 0..MOST_SESSIONS {
        let count = crew.block_count(place) as u64;
        if count > 0 {
            let session = place as u32 + 1;
            works.push(Work::Session(Blocks {
                place,
                session,
                count,
            }))?;
        }
    }
    for place in 0..crew.origin_count() {
        works.push(Work::Origin(place))?;
    }
    Ok(works)
}

/// A job for each work, or for as many as there is memory for.
pub(crate) fn jobs_at<R: RowStore>(
    alloc: Global,
    gate: &SiteGate<SharedCrew<R>>,
    pass: &mut Pass<SharedCrew<R>>,
    works: &[Work],
) -> Vec<Job<R>>
    requires { IsPassOf gate.now pass.old }
    ensures gate { IsPassOf gate.now pass.new }
    ensures opening { opening_of pass.new ≡ opening_of pass.old }
    ensures passes { All (λ job. IsPassOf gate.now job.pass) result.items }
{
    let mut jobs = Vec::new(alloc);
    for &work in works {
        let job = Job {
            work,
            pass: gate.split(pass),
        };
        let Ok(()) = jobs.push(job) else {
            break;
        };
    }
    jobs
}

/// Applies what is ready of the origin at a place, one position in each turn, until a turn finds none, or no memory.
fn apply_in_turns<R: RowStore, X: Wait>(
    rt: &X,
    alloc: Global,
    gate: &SiteGate<SharedCrew<R>>,
    pass: Pass<SharedCrew<R>>,
    place: usize,
) -> Pass<SharedCrew<R>>
    requires { IsPassOf gate.now pass }
    ensures { IsPassOf gate.now result }
{
    let mut pass = pass;
    for _ in 0..u64::MAX {
        let mut turn = gate.enter(rt, pass);
        let applied = turn.value.apply_next(alloc, place);
        pass = gate.leave(turn);
        let Ok(true) = applied else {
            break;
        };
    }
    pass
}

/// Commits the blocks of a session, each in a turn, until there is no memory. Before each turn the watch is told of the session
/// and the block, both from 1.
fn commit_in_turns<R: RowStore, X: Wait, W: Watch>(
    rt: &X,
    alloc: Global,
    gate: &SiteGate<SharedCrew<R>>,
    watch: &W,
    pass: Pass<SharedCrew<R>>,
    blocks: Blocks,
) -> Pass<SharedCrew<R>>
    requires { IsPassOf gate.now pass }
    ensures { IsPassOf gate.now result }
{
    let mut pass = pass;
    for done in 0..blocks.count {
        watch.working(blocks.session, done + 1);
        let mut turn = gate.enter(rt, pass);
        let committed = turn.value.commit_next(alloc, blocks.place);
        pass = gate.leave(turn);
        let Ok(true) = committed else {
            break;
        };
    }
    pass
}

/// Makes the turns of a job.
pub(crate) fn make_turns<R: RowStore, X: Wait, W: Watch>(
    rt: &X,
    alloc: Global,
    gate: &SiteGate<SharedCrew<R>>,
    watch: &W,
    job: Job<R>,
) -> Pass<SharedCrew<R>>
    requires { IsPassOf gate.now job.pass }
    ensures { IsPassOf gate.now result }
{
    let Job { work, pass } = job;
    match work {
        Work::Origin(place) => apply_in_turns(rt, alloc, gate, pass, place),
        Work::Session(blocks) => commit_in_turns(rt, alloc, gate, watch, pass, blocks),
    }
}
