//! A script's run as a page.
ghost use Rattle.std.specs.Prelude.{◌≡◌, IfOk};
ghost use Rattle.rep_io.specs.Faults.{Rose};
ghost use Rattle.script_desk.specs.Ends.{EndsRun};

use crate::reading::read_whole;
use crate::writing::written;
use page_text::page_bytes;
use rep_io::{Sink, Source};
use rep_lists::{Items, NoMemory};
use run_picture::picture;
use run_story::{Outcome, Story, story_of};
use script_drive::Status;
use std::alloc::Global;
use std::sync::Wait;
use std::thread::Threads;

/// The title of a picture.
const TITLE: &[u8] = b"A run of replication";

/// Whether a line that came to this ended its run.
fn is_end(outcome: &Outcome) -> bool {
    if let Outcome::Malformed(_) = outcome {
        return true;
    }
    false
}

/// The status of a run whose last line came to this.
fn status_at(outcome: &Outcome) -> Status
    ensures { EndsRun result }
{
    if is_end(outcome) {
        Status::Malformed
    } else {
        Status::Done
    }
}

/// How a story ended.
fn status_of(story: &Story) -> Status
    ensures { EndsRun result }
{
    match story.lines().last() {
        Some(line) => status_at(&line.outcome),
        None => Status::Done,
    }
}

/// The picture of a script as a page, and how its run ended.
fn pictured<X: Threads + Wait + Sync>(
    rt: &X,
    alloc: Global,
    script: &[u8],
) -> Result<(Items<u8>, Status), NoMemory>
    ensures { IfOk result (λ drawn. EndsRun drawn.1) }
{
    let story = story_of(rt, alloc, script)?;
    let page = picture(alloc, TITLE, &story)?;
    let bytes = page_bytes(alloc, &page)?;
    Ok((bytes, status_of(&story)))
}

/// Draws a script's run, and writes the page.
pub fn draw<X: Threads + Wait + Sync, S: Source, K: Sink>(
    rt: &X,
    alloc: Global,
    source: &mut S,
    sink: &mut K,
) -> Status
    ensures read { result ≡ Status.ReadFault → Rose (S.faults source.old) (S.faults source.new) }
    ensures write { result ≡ Status.WriteFault → Rose (K.faults sink.old) (K.faults sink.new) }
{
    let script = match read_whole(alloc, source) {
        Ok(script) => script,
        Err(status) => return status,
    };
    let Ok((page, status)) = pictured(rt, alloc, &script) else {
        return Status::Memory;
    };
    written(sink, page.as_slice(), status)
}
