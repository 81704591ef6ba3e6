//! A script's run with words behind what it prints.
ghost use Rattle.std.specs.Prelude.{◌≡◌, if◌then◌else◌, IfOk};
ghost use Rattle.rep_io.specs.Faults.{Rose};
ghost use Rattle.run_words.specs.Telling.{is_end};
ghost use Rattle.script_desk.specs.Ends.{RunEnds, RunReads};

use crate::reading::read_whole;
use crate::writing::written;
use rep_io::{Sink, Source};
use rep_lists::NoMemory;
use run_words::{Next, Told, explain};
use script_drive::Status;
use std::alloc::Global;

/// What is told as text, or want of memory.
fn text_of(alloc: Global, told: &Told) -> Result<String, NoMemory> {
    let mut text = String::new(alloc);
    match write!(text, "{told}") {
        Ok(()) => Ok(text),
        Err(_) => Err(NoMemory),
    }
}

/// How a run ends that goes on behind its last line, or doesn't.
fn status_of(next: Next) -> Status
    ensures { result ≡ if is_end next then Status.Malformed else Status.Done }
{
    match next {
        Next::GoesOn => Status::Done,
        Next::Ends => Status::Malformed,
    }
}

/// What a script's run prints, with words, and how it ends. It is told behind what is told already.
#[tactic(auto, using(crate::proofs::Ends::end_facts))]
fn explained_in(alloc: Global, script: &[u8], told: &mut Told) -> Result<(String, Status), NoMemory>
    ensures { IfOk result (λ ended. RunEnds script.now ended.1) }
{
    let next = explain(alloc, script, told)?;
    let text = text_of(alloc, told)?;
    Ok((text, status_of(next)))
}

/// What a script's run prints, with words, and how it ends.
fn explained(alloc: Global, script: &[u8]) -> Result<(String, Status), NoMemory>
    ensures { IfOk result (λ ended. RunEnds script.now ended.1) }
{
    let mut told = Told::new(alloc);
    explained_in(alloc, script, &mut told)
}

/// Reads a script to its end, runs it, and writes what that prints, with words behind what wants some. Malformed where a line ends the
/// run, as it does for `run`.
#[tactic(auto, using(crate::proofs::Ends::end_facts))]
pub fn tell_run<S: Source, K: Sink>(alloc: Global, source: &mut S, sink: &mut K) -> Status
    ensures told { RunReads (S.left source.old) (S.left source.new) result }
    ensures read { result ≡ Status.ReadFault → Rose (S.faults source.old) (S.faults source.new) }
    ensures write { result ≡ Status.WriteFault → Rose (K.faults sink.old) (K.faults sink.new) }
{
    let script = match read_whole(alloc, source) {
        Ok(script) => script,
        Err(status) => return status,
    };
    let Ok((text, status)) = explained(alloc, &script) else {
        return Status::Memory;
    };
    written(sink, text.as_bytes(), status)
}
