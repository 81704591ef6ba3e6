//! What is wrong with a script.
ghost use Rattle.std.specs.Prelude.{◌≡◌, ◌≢◌, [], IfOk};
ghost use Rattle.rep_io.specs.Faults.{Rose};
ghost use Rattle.script_desk.specs.Ends.{LintEnds, LintReads};

use crate::reading::read_whole;
use crate::writing::written;
use rep_io::{Sink, Source};
use rep_lists::NoMemory;
use script_drive::Status;
use script_lint::{Findings, lint};
use std::alloc::Global;

/// The findings as lines, or want of memory.
fn text_of(alloc: Global, found: &Findings) -> Result<String, NoMemory> {
    let mut text = String::new(alloc);
    match write!(text, "{found}") {
        Ok(()) => Ok(text),
        Err(_) => Err(NoMemory),
    }
}

/// How a run ends that found this.
fn status_of(found: &Findings) -> Status
    ensures done { result ≡ Status.Done → found.now.errors.items ≡ [] }
    ensures error { result ≢ Status.Done → (result ≡ Status.Malformed) × (found.now.errors.items ≢ []) }
{
    if found.has_error() {
        Status::Malformed
    } else {
        Status::Done
    }
}

/// The findings of a script as lines, and how a run ends that tells them.
#[tactic(auto, using(crate::proofs::Ends::end_facts))]
fn linted(alloc: Global, script: &[u8]) -> Result<(String, Status), NoMemory>
    ensures { IfOk result (λ told. LintEnds script.now told.1) }
{
    let found = lint(alloc, script)?;
    let text = text_of(alloc, &found)?;
    Ok((text, status_of(&found)))
}

/// Reads a script to its end, and writes all that is found in it. Malformed where the engine doesn't do one of its lines.
#[tactic(auto, using(crate::proofs::Ends::end_facts))]
pub fn tell_findings<S: Source, K: Sink>(alloc: Global, source: &mut S, sink: &mut K) -> Status
    ensures told { LintReads (S.left source.old) (S.left source.new) result }
    ensures read { result ≡ Status.ReadFault → Rose (S.faults source.old) (S.faults source.new) }
    ensures write { result ≡ Status.WriteFault → Rose (K.faults sink.old) (K.faults sink.new) }
{
    let script = match read_whole(alloc, source) {
        Ok(script) => script,
        Err(status) => return status,
    };
    let Ok((text, status)) = linted(alloc, &script) else {
        return Status::Memory;
    };
    written(sink, text.as_bytes(), status)
}
