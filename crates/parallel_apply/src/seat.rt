//! A seat at which a worker waits for jobs.
ghost use Rattle.std.specs.Prelude.{◌<◌};
ghost use Rattle.std.specs.Arc.{arc_value};
ghost use Rattle.site_gate.specs.Passes.{IsPassOf};

use crate::applier::Applier;
use crate::crew::Crew;
use rep_schema::RowStore;
use site_gate::{SiteGate, Turns};
use std::alloc::Global;
use std::sync::{Arc, Condvar, Mutex, Wait};
use std::time::Duration;

// How many microseconds a worker sleeps where the gate of its job isn't free.
const MOMENT: u64 = 50;

/// What a worker is handed: an applier of a crew, and the crew's gate.
#[derive(Drop)]
pub struct Job<R: RowStore>
where
    Crew<R>: Turns,
{
    pub gate: Arc<SiteGate<Crew<R>>, Global>,
    pub applier: Applier<R>,
    ghost fits: { IsPassOf (arc_value gate) applier.pass },
    ghost number: { applier.number < 8 },
}

/// What lies at a seat.
#[derive(Drop)]
struct Desk<R: RowStore>
where
    Crew<R>: Turns,
{
    // A job that nobody has taken yet.
    offered: Option<Job<R>>,
    // The worker waits for a job.
    waits: bool,
    // The worker is at a job.
    at_work: bool,
    // No job comes any more.
    closed: bool,
}

/// A seat at which one worker waits for jobs.
#[derive(Drop)]
pub struct Seat<R: RowStore>
where
    Crew<R>: Turns,
{
    desk: Mutex<Desk<R>>,
    // All who wait are woken at each change, whatever they wait for.
    changed: Condvar,
}

impl<R: RowStore> Seat<R> {
    pub(crate) fn new() -> Seat<R> {
        let desk = Desk {
            offered: None,
            waits: false,
            at_work: false,
            closed: false,
        };
        Seat {
            desk: Mutex::new(desk),
            changed: Condvar::new(),
        }
    }

    /// Lays a job on the desk, for a worker who is called later. Where another one lies there, the worker is at one, or the seat is
    /// closed, it is let go.
    pub(crate) fn offer<X: Wait>(&self, rt: &X, job: Job<R>) {
        let mut desk = self.desk.lock(rt);
        if desk.offered.is_none() && !desk.at_work && !desk.closed {
            desk.offered = Some(job);
        }
    }

    /// Calls the worker, where it waits and a job lies there, and answers whether it does.
    pub(crate) fn call<X: Wait>(&self, rt: &X) -> bool {
        let desk = self.desk.lock(rt);
        let comes = desk.waits && desk.offered.is_some();
        drop(desk);
        if comes {
            self.changed.notify_all();
        }
        comes
    }

    /// Waits for a job, and until its gate is free: it sleeps for a moment, and looks again. None once the seat is closed.
    pub(crate) fn take<X: Wait>(&self, rt: &X) -> Option<Job<R>> {
        let mut desk = self.desk.lock(rt);
        for _ in rt.forever() {
            if desk.closed {
                return None;
            }
            desk.waits = true;
            let Some(job) = desk.offered.take() else {
                desk = self.changed.wait(rt, desk);
                continue;
            };
            if job.gate.is_free() {
                desk.waits = false;
                desk.at_work = true;
                return Some(job);
            }
            desk.offered = Some(job);
            let changes = self.changed.notifications();
            drop(desk);
            self.changed
                .sleep(rt, changes, Duration::from_micros(MOMENT));
            desk = self.desk.lock(rt);
        }
        unreachable!()
    }

    /// The worker is done with its job.
    pub(crate) fn leave<X: Wait>(&self, rt: &X) {
        self.desk.lock(rt).at_work = false;
        self.changed.notify_all();
    }

    /// Takes a job back that the worker hasn't taken, and waits until the worker is done with the one that it has.
    pub(crate) fn clear<X: Wait>(&self, rt: &X) {
        let mut desk = self.desk.lock(rt);
        desk.offered = None;
        drop(self.changed.wait_while(rt, desk, |desk| desk.at_work));
    }

    /// Tells the worker that no job comes any more.
    pub(crate) fn close<X: Wait>(&self, rt: &X) {
        let mut desk = self.desk.lock(rt);
        desk.offered = None;
        desk.closed = true;
        drop(desk);
        self.changed.notify_all();
    }
}
