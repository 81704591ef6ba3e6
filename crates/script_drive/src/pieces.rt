//! A script that is read piece by piece from a source, and its report that goes to a sink.
ghost use Rattle.std.specs.Prelude.{◌≡◌, ◌≢◌};
ghost use Rattle.rep_io.specs.Faults.{Rose};
ghost use Rattle.script_drive.specs.Fed.{run_beginning};
ghost use Rattle.script_drive.specs.Outcome.{RanBy};

use crate::at_end::{AtEnd, end};
use crate::reader::Reader;
use crate::run::{Halt, LineRunner, MOST_PROGRESS, Run};
use crate::status::Status;
use rep_io::Sink;
use std::alloc::Global;

const PIECE: usize = 4_096;

/// Reads a script to its end, and runs each line, from the beginning of a run.
fn run_pieces<X: LineRunner, S, K: Sink, R: Reader<S, K>>(
    alloc: Global,
    run: &mut Run<X>,
    reader: &mut R,
    source: &mut S,
    sink: &mut K,
) -> Status
    requires known { X.known run.old.state }
    requires fresh { run.old ≡ run_beginning run.old.state }
    ensures told { RanBy X.step X.allowed X.known run.old.state result (R.left source.old) (R.left source.new) (K.taken sink.old) (K.taken sink.new) (R.reads reader.old) (R.reads reader.new) }
    ensures read { result ≡ Status.ReadFault → Rose (R.faults source.old) (R.faults source.new) }
    ensures write { result ≡ Status.WriteFault → Rose (K.faults sink.old) (K.faults sink.new) }
    ensures ran { result ≢ Status.Usage }
{
    let mut piece = [0u8; PIECE];
    for _ in 0..MOST_PROGRESS {
        let Ok(count) = reader.read(source, sink, &mut piece) else {
            return Status::ReadFault;
        };
        if count == 0 {
            if let Err(halt) = run.finish(alloc, sink) {
                return halt.status();
            }
            return Status::Done;
        }
        if let Err(halt) = run.feed(alloc, &piece[..count], sink) {
            return halt.status();
        }
    }
    unreachable!()
}

/// Runs a script line by line, and offers the report of each line before it reads on.
///
/// Where the reader tells its reads: whenever more of the script is asked for, none of the whole lines read so far had ended the
/// run, all that they print had been written, and no read had failed.
///
/// What is told holds by all choices that the state to which the run came allows. It is the same whatever becomes of the runner
/// at the end.
pub fn drive<X: LineRunner, S, K: Sink, R: Reader<S, K>>(
    alloc: Global,
    runner: X,
    at_end: AtEnd,
    reader: &mut R,
    source: &mut S,
    sink: &mut K,
) -> Status
    requires { X.known (X.state runner) }
    ensures told { RanBy X.step X.allowed X.known (X.state runner) result (R.left source.old) (R.left source.new) (K.taken sink.old) (K.taken sink.new) (R.reads reader.old) (R.reads reader.new) }
    ensures read { result ≡ Status.ReadFault → Rose (R.faults source.old) (R.faults source.new) }
    ensures write { result ≡ Status.WriteFault → Rose (K.faults sink.old) (K.faults sink.new) }
    ensures ran { result ≢ Status.Usage }
{
    let Ok(mut run) = Run::start(alloc, runner) else {
        return Status::Memory;
    };
    let status = run_pieces(alloc, &mut run, reader, source, sink);
    end(run, at_end);
    status
}
