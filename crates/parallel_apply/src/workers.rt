//! Threads that are kept over the passes of a run.
ghost use Rattle.std.specs.Prelude.{◌≡◌, ◌+◌, ◌^◌, ◌<◌, ◌≤◌, true, length, vec_len, IfOk, IfErr};
ghost use Rattle.std.specs.Arc.{arc_value};
ghost use Rattle.rep_laws.specs.Commuting.{IsSound};
ghost use Rattle.site_state.specs.State.{arrivals};
ghost use Rattle.rep_schema.specs.Sites.{is_master_site};
ghost use Rattle.site_state.specs.Steps.{begun};
ghost use Rattle.site_state.specs.Passes.{site_pass};
ghost use Rattle.site_state.specs.Waited.{IsWellNumbered};
ghost use Rattle.event_laws.specs.Confluence.{CanPassInAnyOrder};
ghost use Rattle.site_gate.specs.Passes.{IsPassOf, opening_of};
ghost use Rattle.parallel_apply.specs.Crews.{IsPartlyApplied};

use crate::applier::{Applier, work};
use crate::apply::{can_pass_in_any_order, end_pass};
use crate::claim::appliers_for;
use crate::crew::Crew;
use crate::seat::{Job, Seat};
use rep_io::Watch;
use rep_lists::NoMemory;
use rep_schema::RowStore;
use rep_values::SiteName;
use site_engine::Site;
use site_gate::{Pass, SiteGate, Turn, Turns};
use std::alloc::Global;
use std::snapshot::Snapshot;
use std::sync::{Arc, Wait};
use std::thread;
use std::thread::{Threads, join_mut};

/// The seats of the workers of a run, at which a pass finds its appliers beside the caller.
#[derive(Drop)]
pub struct Workers<R: RowStore>
where
    Crew<R>: Turns,
{
    seats: Vec<Seat<R>>,
    ghost few: { vec_len seats < 8 },
}

/// Waits at the seat of a place, and works as the applier that each job names, until the seat is closed.
fn serve<R: RowStore, X: Wait, W: Watch>(
    rt: &X,
    alloc: Global,
    workers: &Workers<R>,
    place: usize,
    watch: &W,
) {
    let Some(seat) = workers.seats.get(place) else {
        return;
    };
    for _ in rt.forever() {
        let Some(job) = seat.take(rt) else {
            return;
        };
        let Job { gate, applier } = job;
        let pass = work(rt, alloc, workers, &*gate, watch, applier);
        drop(pass);
        drop(gate);
        seat.leave(rt);
    }
}

impl<R: RowStore> Workers<R> {
    // So many seats, or as many as there is memory for.
    fn seated(alloc: Global, number: u32) -> Workers<R>
        requires { number < 8 }
    {
        let mut seats = Vec::new(alloc);
        for _ in 0..number {
            let Ok(()) = seats.push(Seat::new()) else {
                break;
            };
        }
        Workers { seats }
    }

    /// Seats for the workers of so many appliers, 1 to 8, of which the caller is one; or as many as there is memory for.
    pub fn new(alloc: Global, appliers: u32) -> Workers<R>
        requires { (1 ≤ appliers) × (appliers ≤ 8) }
    {
        Workers::seated(alloc, appliers - 1)
    }

    /// Whether there are none.
    pub fn is_empty(&self) -> bool {
        self.seats.is_empty()
    }

    // Offers an applier of the crew to each of the first workers.
    fn offer<X: Wait>(
        &self,
        rt: &X,
        gate: &Arc<SiteGate<Crew<R>>, Global>,
        pass: &mut Pass<Crew<R>>,
        appliers: u32,
    )
        requires gate { IsPassOf (arc_value gate.now) pass.old }
        requires appliers { appliers ≤ 8 }
        ensures gate { IsPassOf (arc_value gate.now) pass.new }
        ensures opening { opening_of pass.new ≡ opening_of pass.old }
    {
        for number in 1..appliers {
            let Some(seat) = self.seats.get(number as usize - 1) else {
                break;
            };
            let Ok(theirs) = Arc::try_clone(gate) else {
                break;
            };
            let applier = Applier {
                number,
                pass: gate.split(pass),
            };
            seat.offer(
                rt,
                Job {
                    gate: theirs,
                    applier,
                },
            );
        }
    }

    /// Calls the next worker behind an applier who waits where a job lies.
    pub(crate) fn call_next<X: Wait>(&self, rt: &X, applier: u32) {
        for place in applier as usize..self.seats.len() {
            let Some(seat) = self.seats.get(place) else {
                return;
            };
            if seat.call(rt) {
                return;
            }
        }
    }

    // Waits until no worker is at a job, and takes back what wasn't taken.
    fn clear<X: Wait>(&self, rt: &X) {
        for seat in &self.seats {
            seat.clear(rt);
        }
    }

    // Tells all workers that no job comes any more.
    fn close<X: Wait>(&self, rt: &X) {
        for seat in &self.seats {
            seat.close(rt);
        }
    }

    // The caller and workers apply what is ready of a sender side by side, until none of them finds more.
    fn apply_together<X: Wait, W: Watch>(
        &self,
        rt: &X,
        alloc: Global,
        site: Site<R>,
        origin: &SiteName,
        appliers: u32,
        watch: &W,
    ) -> Site<R>
        requires passes { CanPassInAnyOrder origin.now site }
        requires appliers { appliers ≤ 8 }
        ensures { IsPartlyApplied origin.now site result }
    {
        let crew = match Crew::make(alloc, site, origin) {
            Ok(crew) => crew,
            Err(site) => return site,
        };
        let (gate, mut pass) = match SiteGate::make(alloc, crew) {
            Ok(made) => made,
            Err((crew, _)) => return crew.into_site(),
        };
        let gate = match Arc::new(alloc, gate) {
            Ok(gate) => gate,
            Err(refused) => return refused.value.close(rt, pass).into_site(),
        };
        self.offer(rt, &gate, &mut pass, appliers);
        let applier = Applier {
            number: 0,
            pass: gate.split(&mut pass),
        };
        drop(work(rt, alloc, self, &*gate, watch, applier));
        self.clear(rt);
        let Turn { value: crew, .. } = gate.enter(rt, pass);
        crew.into_site()
    }

    /// A pass for a sender that is a master, by the caller and the workers: the site that comes back is the site after the pass of
    /// one. Where there is no memory, some of what was ready is applied, each transaction whole and journalled.
    ///
    /// The schema breaks no rule, and what arrived from the sender is well numbered, as it is at every site of a script's world.
    /// Workers are offered work where two positions are ready.
    pub fn pass<X: Wait, W: Watch>(
        &self,
        rt: &X,
        alloc: Global,
        site: Site<R>,
        origin: &SiteName,
        watch: &W,
    ) -> Result<Site<R>, (Site<R>, NoMemory)>
        requires sound { IsSound site.schema }
        requires master { is_master_site site.schema origin.now ≡ true }
        requires numbered { IsWellNumbered site.schema (arrivals origin.now site) }
        requires few { site.moment + 1 < 2 ^ 64 }
        ensures ok { IfOk result (λ passed. passed ≡ site_pass origin.now site) }
        ensures err { IfErr result (λ refused. IsPartlyApplied origin.now (begun site) refused.0) }
    {
        let mut site = site;
        can_pass_in_any_order(&site, origin);
        let appliers = appliers_for(&site, origin, self.seats.len() as u32 + 1);
        if appliers < 2 {
            return match site.apply_pass(alloc, origin) {
                Ok(_) => Ok(site),
                Err(refused) => Err((site, refused)),
            };
        }
        let opened = Snapshot::of(&site);
        site.begin_pass();
        let from = site.journal_len();
        let site = self.apply_together(rt, alloc, site, origin, appliers, watch);
        end_pass(site, alloc, origin, opened, from)
    }
}

// Lets a thread serve at each seat.
fn serve_all<R: RowStore, X: Threads + Wait + Sync, W: Watch>(
    rt: &X,
    alloc: Global,
    workers: &Workers<R>,
    watch: &W,
) {
    let one = |place: usize| { serve(rt, alloc, workers, place, watch) };
    drop(thread::map_indices(rt, alloc, workers.seats.len(), &one));
}

/// Makes a call while a thread serves at each seat of workers. The threads end behind the call, and the seats are closed then: a
/// later pass finds no workers. Where a thread can't be started, passes go on without it.
pub fn beside_workers<R: RowStore, X: Threads + Wait + Sync, W: Watch, T, F: FnMut() -> T>(
    rt: &X,
    alloc: Global,
    workers: &Workers<R>,
    watch: &W,
    run: &mut F,
) -> T
    requires { F.pre run.old }
    ensures { F.step run.old result run.new }
{
    if workers.is_empty() {
        return run();
    }
    let mut serve = || serve_all(rt, alloc, workers, watch);
    let mut lead = || -> T
        requires { F.pre run.now }
        ensures { F.step run.entry.now result run.exit.now }
    {
        let result = run();
        workers.close(rt);
        result
    };
    let ((), result) = join_mut(rt, &mut serve, &mut lead);
    result
}
