//! What each applier of a crew does.
ghost use Rattle.std.specs.Prelude.{◌<◌};
ghost use Rattle.site_gate.specs.Passes.{IsPassOf};

use crate::claim::evaluate;
use crate::crew::Crew;
use crate::workers::Workers;
use rep_io::Watch;
use rep_schema::RowStore;
use site_gate::{Pass, SiteGate, Turns};
use std::alloc::Global;
use std::sync::Wait;

/// An applier by its number, with its pass to the crew's gate.
#[derive(Drop)]
pub struct Applier<R: RowStore>
where
    Crew<R>: Turns,
{
    pub number: u32,
    pub pass: Pass<Crew<R>>,
}

/// Claims one position after the other, evaluates each outside the lock, and puts it in, in the turn that claims the next, until
/// nothing is free or there is no memory. Once it has claimed a first one, it calls the next worker.
pub(crate) fn work<R: RowStore, X: Wait, W: Watch>(
    rt: &X,
    alloc: Global,
    workers: &Workers<R>,
    gate: &SiteGate<Crew<R>>,
    watch: &W,
    applier: Applier<R>,
) -> Pass<Crew<R>>
    requires gate { IsPassOf gate.now applier.pass }
    requires number { applier.number < 8 }
    ensures { IsPassOf gate.now result }
{
    let Applier { number, mut pass } = applier;
    let mut turn = gate.enter(rt, pass);
    let mut claim = turn.value.claim(alloc, number);
    pass = gate.leave(turn);
    if claim.is_some() {
        workers.call_next(rt, number);
    }
    for _ in rt.forever() {
        let Some(claimed) = claim else {
            break;
        };
        let Ok(done) = evaluate(alloc, claimed) else {
            break;
        };
        watch.working(number, done.position);
        let mut turn = gate.enter(rt, pass);
        claim = turn.value.go_on(alloc, number, done);
        pass = gate.leave(turn);
    }
    pass
}
