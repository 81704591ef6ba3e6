//! Threads that tell of work that they don't do.
ghost use Rattle.std.specs.Prelude.{◌<◌, ◌≤◌};

use case_reader::CaseStop;
use rep_io::Watch;
use std::alloc::Global;
use std::thread;
use std::thread::Threads;

/// One of so many appliers tells of its share of three positions, and works on none.
fn tell<W: Watch>(watch: &W, first: u64, appliers: u32, number: usize) -> usize
    requires { (1 ≤ appliers) × (number < 8) }
{
    for place in 0..3 {
        if place % u64::from(appliers) == number as u64 {
            watch.working(number as u32, first.saturating_add(place));
        }
    }
    number
}

/// So many appliers side by side tell of the three positions from the first one on.
pub fn pretend<X: Threads + Sync, W: Watch>(
    rt: &X,
    alloc: Global,
    first: u64,
    appliers: u32,
    watch: &W,
) -> Result<(), CaseStop>
    requires { (1 ≤ appliers) × (appliers ≤ 8) }
{
    let apply = |number: usize| -> usize
        requires appliers { 1 ≤ appliers }
        requires number { number < 8 }
    { tell(watch, first, appliers, number) };
    thread::map_indices(rt, alloc, appliers as usize, &apply)?;
    Ok(())
}
