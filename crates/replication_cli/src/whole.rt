//! The call that runs a whole storm.
ghost use Rattle.std.specs.Prelude.{◌≡◌, ◌≤◌};
ghost use Rattle.rep_io.specs.Faults.{Rose};
ghost use Rattle.storm_script.specs.Laws.{most_rounds};
ghost use Rattle.replication_cli.specs.Summary.{storm_summary};
ghost use Rattle.replication_cli.specs.Outcome.{TellsOf, StormEnds};

use crate::summary::summary;
use rep_io::{Sink, Watch, offer};
use script_drive::Status;
use std::alloc::Global;
use std::sync::Wait;
use std::thread::Threads;

/// Runs the storm of a seed and a number of rounds with so many appliers, and writes its summary to the sink. It reads nothing.
/// With one applier it takes no lock.
///
/// `Done`: the whole summary was written. `WriteFault`, `Memory`: a front of it was written. It ends in no other way.
pub fn storm<X: Threads + Wait + Sync, K: Sink, W: Watch>(
    rt: &X,
    alloc: Global,
    seed: u64,
    count: u32,
    appliers: u32,
    sink: &mut K,
    watch: &W,
) -> Status
    requires some { 1 ≤ count }
    requires most { count ≤ most_rounds }
    requires appliers { (1 ≤ appliers) × (appliers ≤ 8) }
    ensures told { TellsOf result (storm_summary seed count) (K.taken sink.old) (K.taken sink.new) }
    ensures ends { StormEnds result }
    ensures write { result ≡ Status.WriteFault → Rose (K.faults sink.old) (K.faults sink.new) }
{
    let Ok(told) = summary(rt, alloc, seed, count, appliers, watch) else {
        return Status::Memory;
    };
    let Ok(()) = offer(sink, told.bytes()) else {
        return Status::WriteFault;
    };
    Status::Done
}
