//! Threads that add numbers under a gate.
ghost use Rattle.std.specs.Prelude.{◌≡◌, IfOk};
ghost use Rattle.site_gate.specs.Passes.{IsPassOf};

use crate::tally::Tally;
use rep_lists::NoMemory;
use site_gate::{Pass, SiteGate};
use std::alloc::Global;
use std::sync::Wait;
use std::thread;
use std::thread::Threads;

/// What a thread is given.
#[derive(Drop)]
struct Job {
    pass: Pass<Tally>,
    numbers: Vec<u64>,
}

// Adds each number in a turn of its own.
fn add_all<R: Wait>(
    rt: &R,
    gate: &SiteGate<Tally>,
    pass: Pass<Tally>,
    numbers: &[u64],
) -> Pass<Tally>
    requires { IsPassOf gate.now pass }
    ensures { IsPassOf gate.now result }
{
    let mut pass = pass;
    for &number in numbers {
        let mut turn = gate.enter(rt, pass);
        turn.value.add(number);
        pass = gate.leave(turn);
    }
    pass
}

/// The tally after each group of numbers was added by a thread of its own.
pub fn added<R: Threads + Wait + Sync>(
    rt: &R,
    alloc: Global,
    first: u64,
    groups: Vec<Vec<u64>>,
) -> Result<Tally, NoMemory>
    ensures { IfOk result (λ tally. tally.first ≡ first) }
{
    let (gate, mut pass) = match SiteGate::make(alloc, Tally::new(alloc, first)) {
        Ok(made) => made,
        Err((_, refused)) => return Err(refused),
    };
    let mut jobs = Vec::new(alloc);
    for numbers in groups {
        let pass = gate.split(&mut pass);
        jobs.push(Job { pass, numbers })?;
    }
    let shared = &gate;
    let work = |job: Job| -> Pass<Tally>
        requires { IsPassOf shared.now job.pass }
        ensures { IsPassOf shared.entry.now result }
    {
        let Job { pass, numbers } = job;
        add_all(rt, shared, pass, numbers.as_slice())
    };
    for other in thread::map_vec(rt, jobs, &work)? {
        gate.join(&mut pass, other);
        gate.meet(&mut pass);
    }
    Ok(gate.close(rt, pass))
}
