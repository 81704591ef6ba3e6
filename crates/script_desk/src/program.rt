//! What the program does with the words of its command line.
ghost use Rattle.std.specs.Prelude.{◌≡◌, map, Some, None};
ghost use Rattle.rep_io.specs.Faults.{Rose};
ghost use Rattle.script_desk.specs.Ends.{LintReads, RunReads};
ghost use Rattle.script_desk.specs.Words.{asked_by};

use crate::drawing::draw;
use crate::explaining::tell_run;
use crate::linting::tell_findings;
use crate::words::{Asked, asked_by};
use rep_io::{Sink, Source};
use script_drive::Status;
use std::alloc::Global;
use std::sync::Wait;
use std::thread::Threads;

/// What the program does with the words behind its name; a live part is drawn as threads of `rt` ran it. For `lint` it reads the
/// script of the source to its end, and writes what is found in it; for `picture` it writes a page on which its run is drawn; for
/// `explain` it writes what the run prints, with words. For all other words it answers `Usage`, and reads and writes nothing.
pub fn run_desk<X: Threads + Wait + Sync, S: Source, K: Sink>(
    rt: &X,
    alloc: Global,
    words: &[&str],
    source: &mut S,
    sink: &mut K,
) -> Status
    ensures usage { asked_by (map (λ word. word.now) words.now) ≡ None → (result ≡ Status.Usage) × (source.new ≡ source.old) × (sink.new ≡ sink.old) }
    ensures lint { asked_by (map (λ word. word.now) words.now) ≡ Some Asked.Lint → LintReads (S.left source.old) (S.left source.new) result }
    ensures explain { asked_by (map (λ word. word.now) words.now) ≡ Some Asked.Explain → RunReads (S.left source.old) (S.left source.new) result }
    ensures read { result ≡ Status.ReadFault → Rose (S.faults source.old) (S.faults source.new) }
    ensures write { result ≡ Status.WriteFault → Rose (K.faults sink.old) (K.faults sink.new) }
{
    match asked_by(words) {
        None => Status::Usage,
        Some(Asked::Lint) => tell_findings(alloc, source, sink),
        Some(Asked::Picture) => draw(rt, alloc, source, sink),
        Some(Asked::Explain) => tell_run(alloc, source, sink),
    }
}
